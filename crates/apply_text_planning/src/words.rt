//! The words for planned actions, drift and outputs.

ghost use Rattle.std.specs.Prelude.{◌≡◌};
ghost use Rattle.std.specs.Option.{option_copied};
ghost use Rattle.apply_text_planning.specs.Words as words;

use apply_model::{ChangeDetails, StepKind};
use apply_prior::OutputAction;
use apply_text_terraform::parts::planned_word;

/// What happened to an object outside of Terraform. `forgets` says whether Terraform forgets the
/// object. A drift without an action is a move.
pub fn drift_word(steps: &[StepKind], forgets: bool) -> &'static str
    ensures { result.now ≡ words.drift_word steps.now forgets }
{
    match planned_word(steps, forgets) {
        Some(word) => word,
        None => "move",
    }
}

/// The word for the planned action of a change with these steps. `None` when the change has no
/// line.
pub fn command_word(steps: &[StepKind], details: &ChangeDetails) -> Option<&'static str>
    ensures { option_copied result ≡ words.command_word steps.now details.now }
{
    match planned_word(steps, details.forgets) {
        Some(word) => Some(word),
        None if details.previous.is_some() => Some("move"),
        None if details.importing.is_some() => Some("import"),
        None => None,
    }
}

/// The word for what a plan does to an output.
pub fn output_word(action: OutputAction) -> &'static str
    ensures { result.now ≡ words.output_word action }
{
    match action {
        OutputAction::NoOp => "noop",
        OutputAction::Create => "create",
        OutputAction::Read => "read",
        OutputAction::Update => "update",
        OutputAction::Delete => "delete",
        OutputAction::Replace => "replace",
    }
}
