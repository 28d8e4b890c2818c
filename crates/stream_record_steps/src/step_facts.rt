//! What lines state of a step that is under way.

ghost use Rattle.std.specs.Prelude.{◌≡◌, [], ◌∷◌, ◌++◌, OnErr, OnOk};
ghost use Rattle.stream_record_steps.specs.Taken.{stated_by};

use apply_model::Text;
use std::alloc::{AllocError, Global};
use std::marker::Model;
use stream_record_lines::ProvisionerStage;

/// What a line states of a step that is under way.
#[derive(Debug, Drop)]
pub struct StepFact {
    /// The second of the line.
    pub second: i64,
    pub stated: Stated,
}

/// What a line states of a step that is under way.
#[derive(Debug, Drop)]
pub enum Stated {
    /// The step goes on (`apply_progress`).
    Progress {
        /// The seconds since the step began, as the line states them.
        seconds: u64,
    },
    /// A provisioner began.
    ProvisionerBegan {
        /// The name of the provisioner.
        name: Text,
    },
    /// A provisioner wrote this.
    Wrote {
        output: Text,
    },
    /// A provisioner completed.
    ProvisionerEnded,
    /// A provisioner failed.
    ProvisionerFailed,
}

/// What lines state of a step, in their order. Contracts see a list.
#[derive(Debug, Drop)]
pub struct StepFacts {
    facts: Vec<StepFact>,
}

impl Model for StepFacts {
    ghost use Rattle.std.specs.Prelude.{List};
    ghost use Rattle.stream_record_steps.specs.declared.step_facts.StepFact.{StepFact};

    ghost Value = { List StepFact };

    ghost view = { λ facts. facts.facts.items };
}

impl StepFacts {
    /// No facts.
    pub fn new(alloc: Global) -> StepFacts
        ensures { result ≡ [] }
    {
        StepFacts {
            facts: Vec::new(alloc),
        }
    }

    /// Adds a fact. `Err` where memory is refused: nothing changes then.
    pub fn push(&mut self, fact: StepFact) -> Result<(), AllocError>
        ensures ok { OnOk result (self.new ≡ self.old ++ fact ∷ []) }
        ensures err { OnErr result (self.new ≡ self.old) }
    {
        self.facts.push(fact)?;
        Ok(())
    }

    /// The facts, in the order of their lines.
    pub fn as_slice(&self) -> &[StepFact]
        ensures { result.now ≡ self.now }
    {
        self.facts.as_slice()
    }
}

/// What a stage of the provisioner of this name states of its step.
pub fn stated_by(name: Text, stage: ProvisionerStage) -> Stated
    ensures { result ≡ stated_by name stage }
{
    match stage {
        ProvisionerStage::Began => Stated::ProvisionerBegan { name },
        ProvisionerStage::Wrote { output } => Stated::Wrote { output },
        ProvisionerStage::Ended => Stated::ProvisionerEnded,
        ProvisionerStage::Failed => Stated::ProvisionerFailed,
    }
}
