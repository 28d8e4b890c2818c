//! A step as a script states it.

ghost use Rattle.std.specs.Prelude.{◌≡◌};
ghost use Rattle.std.specs.Option.{option_copied};

use crate::script::outcome::Outcome;
use crate::script::waits::Waits;

/// What a script states of a step.
#[derive(Debug, Drop)]
pub enum ScriptStep {
    /// The provider answers.
    Answered(Outcome),
    /// The step does not start, and its change ends before it. No hook is asked about it, and no
    /// total counts it.
    Skipped {
        /// The steps that the script names in `after`. No step waits for them because of this one.
        /// They count only in the search for steps that can never begin.
        after: Waits,
    },
}

impl ScriptStep {
    ghost use Rattle.apply_model.specs.Script.Step.{after_of, answer_to, is_skipped};
    ghost use Rattle.apply_model.specs.Script.Waits.{has_a_wait};

    /// The answer of the provider. `None` where the step is skipped.
    pub fn outcome(&self) -> Option<&Outcome>
        ensures { option_copied result ≡ answer_to self.now }
    {
        match self {
            ScriptStep::Answered(outcome) => Some(outcome),
            ScriptStep::Skipped { .. } => None,
        }
    }

    /// Whether the step is skipped.
    pub fn is_skipped(&self) -> bool
        ensures { result ≡ is_skipped self.now }
    {
        match self {
            ScriptStep::Answered(_) => false,
            ScriptStep::Skipped { .. } => true,
        }
    }

    /// The steps that the script names in `after`, whether or not this step is skipped.
    pub fn after(&self) -> &Waits
        ensures { result.now ≡ after_of self.now }
    {
        match self {
            ScriptStep::Answered(outcome) => &outcome.after,
            ScriptStep::Skipped { after } => after,
        }
    }

    /// Whether the step is not skipped and names a step that it waits for.
    pub fn has_a_wait(&self) -> bool
        ensures { result ≡ has_a_wait self.now }
    {
        match self {
            ScriptStep::Answered(outcome) => outcome.names_a_wait(),
            ScriptStep::Skipped { .. } => false,
        }
    }
}
