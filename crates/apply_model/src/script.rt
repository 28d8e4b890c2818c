//! A script: the outcomes of the steps of a plan.

ghost use Rattle.std.specs.Prelude.{◌≡◌, ◌≤◌, ℕ, [], IfSome, unwrap_or};
ghost use Rattle.std.specs.Option.{option_copied};
ghost use Rattle.apply_model.specs.declared.plan.step_kind.StepKind.{StepKind};
ghost use Rattle.apply_model.specs.Script.Limits.{max_seconds};
ghost use Rattle.apply_model.specs.Script.Outcome.{IsBounded, took};
ghost use Rattle.apply_model.specs.Script.Waits.{has_waits, states_a_wait};

pub mod diag;
pub mod ending;
pub mod outcome;
pub mod provisioner;
pub mod provisioners;
pub mod script_step;
pub mod step_outcomes;
pub mod timed_text;
pub mod timed_texts;
pub mod wait;
pub mod waits;

use crate::script::outcome::Outcome;
use crate::script::step_outcomes::StepOutcomes;
use crate::script::waits::Waits;
use std::marker::Model;

/// The answers of the providers to the steps of a plan.
///
/// Contracts see a list with an item for each change, by number: the first steps of the change as
/// the script states them, or nothing.
#[derive(Debug, Drop)]
pub struct Script {
    /// `None` where the script states no change.
    changes: Option<Vec<Option<StepOutcomes>>>,
}

impl Model for Script {
    ghost use Rattle.std.specs.Prelude.{[]};
    ghost use Rattle.std.specs.Option.{option_map_or};
    ghost use Rattle.apply_model.specs.Script.OutcomeMap.{IsInRange, OutcomeMap};

    ghost Value = { OutcomeMap };

    ghost view = { λ s. option_map_or (λ changes. changes.items) s.changes [] };

    ghost invariant = { λ s. IsInRange (option_map_or (λ changes. changes.items) s.changes []) };
}

impl Script {
    ghost use Rattle.apply_model.specs.Script.OutcomeMap.{IsInRange, first_skipped, stated_outcome, stated_steps};
    ghost use Rattle.apply_model.specs.Script.Waits.{named_for};

    /// A script that states nothing: every step has the default outcome.
    pub fn empty() -> Script
        ensures { result ≡ [] }
    {
        Script { changes: None }
    }

    /// A script with these changes, by number. An item is `None` where the script does not state
    /// the change.
    pub fn new(changes: Vec<Option<StepOutcomes>>) -> Script
        requires { IsInRange changes.items }
        ensures { result ≡ changes.items }
    {
        Script {
            changes: Some(changes),
        }
    }

    /// The answer of the provider to a step of a change, both counted from 0. `None` means the
    /// default outcome, unless the step is skipped. By default a step succeeds after 0 seconds,
    /// with no id, no warning and no provisioners.
    ///
    /// Every number is allowed, even one that the plan of the script does not have.
    pub fn outcome(&self, change: u32, step: u8) -> Option<&Outcome>
        ensures given { option_copied result ≡ stated_outcome self.now change step }
        ensures in_range { IfSome (stated_outcome self.now change step) IsBounded }
        ensures in_time { IfSome (stated_outcome self.now change step)
            (λ outcome. (kind : StepKind) → took kind outcome ≤ max_seconds) }
    {
        self.stated(change)?.get(step as usize)?.outcome()
    }

    /// The number of the first skipped step of a change, counted from 0. The change ends before
    /// that step. `None` where the script skips none of the steps that `outcome` accepts.
    pub fn skipped(&self, change: u32) -> Option<u8>
        ensures { result ≡ first_skipped self.now change }
    {
        self.stated(change)?.first_skipped()
    }

    /// The steps that the script names in `after` of a step, whether or not the step is skipped.
    /// `None` where the script does not state the step.
    pub fn after(&self, change: u32, step: u8) -> Option<&Waits>
        ensures { unwrap_or (option_copied result) [] ≡ named_for self.now change step }
    {
        Some(self.stated(change)?.get(step as usize)?.after())
    }

    /// The steps of a change as the script states them.
    fn stated(&self, change: u32) -> Option<&StepOutcomes>
        ensures stated { option_copied result ≡ stated_steps self.now change }
        ensures in_range { (k : ℕ) → IfSome (stated_outcome self.now change k) IsBounded }
    {
        self.changes.as_ref()?.get(change as usize)?.as_ref()
    }

    /// Whether a step that is not skipped names a step that it waits for.
    pub fn has_waits(&self) -> bool
        ensures { result ≡ has_waits self.now }
    {
        match &self.changes {
            Some(changes) => changes.iter().any(states_a_wait),
            None => false,
        }
    }
}

/// Whether the script states a step of the change that is not skipped and names a step to wait for.
fn states_a_wait(stated: &Option<StepOutcomes>) -> bool
    ensures { result ≡ states_a_wait stated.now }
{
    match stated {
        Some(steps) => steps.name_a_wait(),
        None => false,
    }
}
