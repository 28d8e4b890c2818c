//! The facts of an outcome that decide the events of a step.

ghost use Rattle.std.specs.Prelude.{◌≡◌, ◌≤◌, ◌||◌};
ghost use Rattle.apply_model.specs.Script.Limits.{max_seconds};
ghost use Rattle.apply_model.specs.Script.Outcome.{fails, is_warned, took};
ghost use Rattle.apply_model.specs.Script.OutcomeMap.{outcome_of};
ghost use Rattle.apply_events.specs.Step.{has_warning};
ghost use Rattle.apply_events.specs.Notes.{note_of};
ghost use Rattle.apply_events.specs.StepEvents.{end_of, phase_after, emits_end};

use crate::what::What;
use apply_hooks::Phase;
use apply_model::{Script, StepKind};

/// The facts of an outcome that decide the events of a step, without texts.
#[derive(Clone, Copy)]
pub struct StepFacts {
    /// How long the step takes, in seconds, with the provisioners that run.
    pub seconds: u32,
    /// Whether the step fails: its provider fails, or a provisioner makes it fail.
    pub fails: bool,
    /// Whether there is a warning: of a provider that succeeds, or of a read that only warns.
    pub warns: bool,
    /// Whether the provider fails and only a warning follows.
    pub only_warns: bool,
}

impl StepFacts {
    /// The facts of a step of that kind. Without an outcome in the script the step is done after 0
    /// seconds.
    pub fn new(script: &Script, change: u32, step: u8, kind: StepKind) -> StepFacts
        ensures seconds { result.seconds ≡ took kind (outcome_of script.now change step) }
        ensures fails { result.fails ≡ fails (outcome_of script.now change step) }
        ensures warns { result.warns ≡ has_warning (outcome_of script.now change step).result }
        ensures only_warns { result.only_warns ≡ is_warned (outcome_of script.now change step).result }
        ensures few { result.seconds ≤ max_seconds }
    {
        match script.outcome(change, step) {
            Some(outcome) => StepFacts {
                seconds: outcome.took(kind),
                fails: outcome.fails(),
                warns: outcome.result.warning().is_some(),
                only_warns: outcome.result.only_warns(),
            },
            None => StepFacts {
                seconds: 0,
                fails: false,
                warns: false,
                only_warns: false,
            },
        }
    }

    /// Whether the step has an end event. A step that only warns, and does not fail, has none.
    pub fn emits_end(self) -> bool
        ensures { result ≡ emits_end self.fails self.only_warns }
    {
        self.fails || !self.only_warns
    }

    /// The event with which the step ends.
    pub fn end(self) -> What
        ensures { result ≡ end_of self.fails self.seconds }
    {
        if self.fails {
            What::Errored(self.seconds)
        } else {
            What::Complete(self.seconds)
        }
    }

    /// Whether an error or a warning follows the end.
    pub fn has_note(self) -> bool
        ensures { result ≡ (self.fails || self.warns) }
    {
        self.fails || self.warns
    }

    /// The error of a step that fails, or the warning of any other step.
    pub fn note(self) -> What
        ensures { result ≡ note_of self.fails }
    {
        if self.fails {
            What::ErrorNote
        } else {
            What::WarnNote
        }
    }

    /// The phase in which hooks are asked after the step.
    pub fn phase_after(self) -> Phase
        ensures { result ≡ phase_after self.fails }
    {
        if self.fails {
            Phase::PostFailed
        } else {
            Phase::PostDone
        }
    }
}
