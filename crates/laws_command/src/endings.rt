//! Laws of the end of the stream of a command.

ghost use Rattle.std.specs.Prelude.{ℕ, Bool};
ghost use Rattle.apply_command.specs.Reading.{planned_reading};
ghost use Rattle.apply_run.specs.declared.form_report.FormReport.{FormReport};
ghost use Rattle.apply_run.specs.Bytes.{Inputs};
ghost use Rattle.apply_run.specs.FromBytes.{WasReportedOf};
ghost use Rattle.apply_run.specs.Run.{SinkState};
ghost use Rattle.apply_run.specs.Schedule.{Schedule};
ghost use Rattle.apply_text.specs.declared.operation.Operation.{Operation};
ghost use Rattle.apply_text_terraform.specs.declared.command.Command.{Command};
ghost use Rattle.laws_command.specs.Endings.{HasASummaryOrAnError};

use laws_check::a_run_is_of_whole_steps;
use laws_run::what_was_read_is_within_limits;

/// Does a summary mean that nothing failed? Yes: the stream of an apply or of a destroy has a
/// summary of its operation if and only if none of its lines has the level `error`. That of a plan
/// has none.
///
/// The lines are those of the planning, of the plan, and of events, and diagnostics of no step. The
/// report names an error if and only if a line has the level `error`. The law holds by workers and
/// in lanes.
pub fn a_command_has_a_summary_or_an_error()
    ensures { (schedule : Schedule) (command : Command) (refresh : Bool) (lanes : ℕ) (given : Inputs) (start : ℕ) (operation : Operation)
        (report : FormReport) (before after : SinkState)
        (run : WasReportedOf schedule (planned_reading command refresh lanes) given start operation report before after)
        → HasASummaryOrAnError command lanes run.applied.read start operation run.applied.streamed.events report.contains_error }
{
    what_was_read_is_within_limits();
    a_run_is_of_whole_steps();
}
