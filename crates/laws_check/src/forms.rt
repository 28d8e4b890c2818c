//! Laws of the end of a stream in Terraform's form. Each function calls the laws that its own law
//! follows from: its contract is the law.

ghost use Rattle.std.specs.Prelude.{◌≡◌, ℕ, List, false};
ghost use Rattle.apply_events.specs.declared.counts.Counts.{Counts};
ghost use Rattle.apply_text.specs.declared.operation.Operation.{Operation};
ghost use Rattle.apply_model.specs.declared.details.output.Output.{Output};
ghost use Rattle.apply_text_terraform.specs.declared.form.Form.TheVariants.{Terraform};
ghost use Rattle.apply_text_terraform.specs.Lines.{outputs_text, summary_text};
ghost use Rattle.apply_run.specs.declared.form_report.FormReport.{FormReport};
ghost use Rattle.apply_run.specs.Bytes.{Inputs};
ghost use Rattle.apply_run.specs.FromBytes.{WasReportedBy};
ghost use Rattle.apply_run.specs.Run.{SinkState};
ghost use Rattle.apply_run.specs.Schedule.{Schedule};
ghost use Rattle.laws_check.specs.Levels.{HasAnEndOrAnError, is_error_line};

use crate::applied_in_form::what_was_read_for_terraforms_form_may_be_applied;
use crate::laws::a_run_is_of_whole_steps;

/// A whole stream in Terraform's form ends with a summary if and only if none of its lines has the
/// level `error`. In an apply, one line of outputs follows the summary.
///
/// The lines are those of events and of diagnostics of no step. The report names an error if and
/// only if a line has the level `error`. The law holds by workers and in lanes.
pub fn a_stream_has_an_end_or_an_error()
    ensures { (schedule : Schedule) (given : Inputs) (start : ℕ) (operation : Operation) (report : FormReport) (before after : SinkState)
        (run : WasReportedBy schedule Terraform given start operation report before after)
        → HasAnEndOrAnError run.applied.read start operation run.applied.streamed.events report.contains_error }
{
    what_was_read_for_terraforms_form_may_be_applied();
    a_run_is_of_whole_steps();
}

/// The lines at the end of a stream never have the level `error`.
pub fn no_end_has_the_level_error()
    ensures summary { (start latest : ℕ) (operation : Operation) (counts : Counts) (imported : ℕ)
        → is_error_line (summary_text start latest operation counts imported) ≡ false }
    ensures outputs { (start latest : ℕ) (outputs : List Output)
        → is_error_line (outputs_text start latest outputs) ≡ false }
{}
