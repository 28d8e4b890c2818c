//! Laws of whole runs. Each function calls the laws that its own law follows from: its contract is
//! the law.

ghost use Rattle.std.specs.Prelude.{List, false, ℕ, ◌<◌, ◌≡◌};
ghost use Rattle.apply_model.specs.Script.Waits.{has_waits};
ghost use Rattle.apply_events.specs.declared.event.Event.{Event};
ghost use Rattle.apply_events.specs.Lanes.Dealing.{lanes};
ghost use Rattle.apply_events.specs.Lanes.TimeLine.{IsTimeLine};
ghost use Rattle.apply_events.specs.Waits.TimeLine as waiting;
ghost use Rattle.apply_events.specs.Step.{Work};
ghost use Rattle.apply_text.specs.Order.{as_written};
ghost use Rattle.apply_run.specs.Applied.{IsApplied};
ghost use Rattle.apply_writer.specs.declared.report.Report.{Report};
ghost use Rattle.apply_writer.specs.Stream.Form.{StreamForm};
ghost use Rattle.apply_events.specs.Lanes.{AreLanes};
ghost use Rattle.laws_run.specs.StepTimes.{LinesHaveOneBegin};
ghost use Rattle.apply_run.specs.Run.{HasStreamedBy, SinkState};
ghost use Rattle.apply_run.specs.Schedule.{ByWorkers, InLanes};

use crate::lines::a_hook_message_has_the_time_of_its_event;
use crate::time_lines_without_waits::{
    a_step_takes_the_seconds_that_its_end_names, lanes_deal_out_the_changes,
};
use crate::{times_of_a_time_line_never_fall, without_waits_changes_are_dealt_out};

/// A time line without waits has the events of a run with one worker for each lane. The workers
/// share the changes as the lanes do.
pub fn a_time_line_is_applied_by_workers()
    ensures { (work : Work) (n : ℕ) (events : List Event) → 0 < n → IsTimeLine work n events
        → IsApplied work n (lanes work n) events }
{
    lanes_deal_out_the_changes();
}

/// Without waits, what lanes have streamed is what a run of workers may stream, with one worker for
/// each lane and any capacity, in any form.
///
/// So each law of a run of workers holds of the lanes too.
pub fn what_lanes_stream_is_a_run_of_workers()
    ensures { (work : Work) (lanes capacity : ℕ) (form : StreamForm) (report : Report) (before after : SinkState)
        → AreLanes lanes → has_waits work.script ≡ false → HasStreamedBy (InLanes lanes) form work report before after
        → HasStreamedBy (ByWorkers lanes capacity) form work report before after }
{
    without_waits_changes_are_dealt_out();
    a_time_line_is_applied_by_workers();
}

/// Between the line of a step's start and the line of its end lie exactly the seconds that the end
/// names.
///
/// The lines of hook messages have the times of their own events. The law holds whether steps wait
/// for others or not.
pub fn lines_of_a_step_are_its_seconds_apart()
    ensures { (work : Work) (n change step : ℕ) (events : List Event) → waiting.IsTimeLine work n events
        → LinesHaveOneBegin change step (as_written events) }
{
    a_step_takes_the_seconds_that_its_end_names();
    times_of_a_time_line_never_fall();
    a_hook_message_has_the_time_of_its_event();
}
