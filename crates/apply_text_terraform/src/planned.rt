//! The word for a planned action.

ghost use Rattle.std.specs.Prelude.{◌≡◌};
ghost use Rattle.std.specs.Option.{option_copied};
ghost use Rattle.apply_text_terraform.specs.Details as details;

use apply_model::StepKind;
use apply_text::parts::StepWords;

/// The word for the planned action of a change with these steps. `forgets` says whether Terraform
/// forgets the object. `None` when nothing is planned.
pub fn planned_word(steps: &[StepKind], forgets: bool) -> Option<&'static str>
    ensures { option_copied result ≡ details.planned_word steps.now forgets }
{
    match steps {
        [] if forgets => Some("remove"),
        [] => None,
        [step] => Some(StepWords::new(*step).action),
        _ => Some("replace"),
    }
}
