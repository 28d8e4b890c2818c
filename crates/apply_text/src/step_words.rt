//! The words of messages for the kinds of steps and the phases of hooks.

ghost use Rattle.std.specs.Prelude.{◌≡◌};
ghost use Rattle.apply_text.specs.Words as words;

use apply_hooks::Phase;
use apply_model::StepKind;

/// The words of messages for a kind of step.
#[derive(Clone, Copy, Drop)]
pub struct StepWords {
    /// The member `action` of a hook.
    pub action: &'static str,
    /// What a step does when it starts, as "Creating".
    pub start: &'static str,
    /// What a step is still doing, as "creating".
    pub still: &'static str,
    /// What completes or fails when a step ends, as "Creation".
    pub noun: &'static str,
}

impl StepWords {
    /// The words for a kind of step.
    pub fn new(step: StepKind) -> StepWords
        ensures action { result.action.now ≡ words.action_word step }
        ensures start { result.start.now ≡ words.start_word step }
        ensures still { result.still.now ≡ words.still_word step }
        ensures noun { result.noun.now ≡ words.noun_word step }
    {
        let (action, start, still, noun) = match step {
            StepKind::Create => ("create", "Creating", "creating", "Creation"),
            StepKind::Update => ("update", "Modifying", "modifying", "Modifications"),
            StepKind::Delete => ("delete", "Destroying", "destroying", "Destruction"),
            StepKind::Read => ("read", "Refreshing", "refreshing", "Refresh"),
        };
        StepWords {
            action,
            start,
            still,
            noun,
        }
    }
}

/// When the hook was asked, relative to the step.
pub fn phase_words(phase: Phase) -> &'static str
    ensures { result.now ≡ words.phase_words phase }
{
    match phase {
        Phase::Pre => "before",
        Phase::PostDone => "after",
        Phase::PostFailed => "after failed",
    }
}
