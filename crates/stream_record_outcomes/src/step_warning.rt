//! What the script does not say of a step.

ghost use Rattle.std.specs.Prelude.{◌≡◌};

use apply_model::Text;
use std::marker::Model;

/// What the script does not say of a step.
#[derive(Debug, Drop)]
pub enum StepWarning {
    /// The step has no end. The script states that it is done, or that it failed.
    NoEnd { failed: bool },
    /// The step took more than 86,400 seconds.
    TooLong { seconds: u64 },
    /// Progress comes at other seconds than each tenth before the end.
    OddProgress,
    /// The step failed, and no diagnostic is its own.
    Unexplained,
    /// The completion names this member in place of `id`.
    OtherId { key: Text },
    /// The step has provisioners, and a script may not state them.
    NotProvisionable,
    /// The step failed after its provisioners, and the script leaves them out.
    ProvisionersLeftOut,
    /// The step has this many provisioners, more than 8.
    TooManyProvisioners { count: usize },
    /// A provisioner has this many outputs, more than 100.
    TooMuchOutput { count: usize },
}

/// What the script does not say of a step, in order. Contracts see a list.
#[derive(Debug, Drop)]
pub struct StepWarnings {
    warnings: Vec<StepWarning>,
}

impl Model for StepWarnings {
    ghost use Rattle.std.specs.Prelude.{List};
    ghost use Rattle.stream_record_outcomes.specs.declared.step_warning.StepWarning.{StepWarning};

    ghost Value = { List StepWarning };

    ghost view = { λ it. it.warnings.items };
}

impl StepWarnings {
    /// These warnings, in this order.
    pub fn new(warnings: Vec<StepWarning>) -> StepWarnings
        ensures { result ≡ warnings.items }
    {
        StepWarnings { warnings }
    }

    /// The warnings, in order.
    pub fn as_slice(&self) -> &[StepWarning]
        ensures { result.now ≡ self.now }
    {
        self.warnings.as_slice()
    }
}
