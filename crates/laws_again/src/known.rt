//! Works whose steps `record` read back, in either form.

ghost use Rattle.std.specs.Prelude.{◌≡◌, ℕ, List, Option, Some, false};
ghost use Rattle.apply_events.specs.Step.{Work};
ghost use Rattle.apply_events.specs.declared.event.Event.{Event};
ghost use Rattle.apply_model.specs.declared.details.note.Note.{Note};
ghost use Rattle.laws_kept_waits.specs.InLines.{StatesWaits};
ghost use Rattle.laws_lanes.specs.Alike.{GoesAlike};
ghost use Rattle.laws_record.specs.Writable.{written};
ghost use Rattle.laws_steps_again.specs.Again.{HasRecorded};
ghost use Rattle.laws_steps_again.specs.ReadBack.{IsReadBack, Reading};
ghost use Rattle.laws_waits.specs.Again.{IsKnown, with_script};
ghost use Rattle.laws_waits.specs.Scripts.{recorded_script};
ghost use Rattle.stream_record_cli.specs.Graphs.{AreGraphWaits};
ghost use Rattle.stream_record_outcomes.specs.declared.recorded_step.RecordedStep.{RecordedStep};
ghost use Rattle.stream_record_script.specs.Runs.{steps_of_plan};
ghost use Rattle.stream_record_steps.specs.Begun.{Begun};
ghost use Rattle.stream_record_waits.specs.Recorded.{AreRecordedWaits};
ghost use Rattle.stream_record_waits.specs.declared.choices.Choices.{Choices};

use laws_kept_waits::{lines_come_in_the_order_of_messages, the_steps_of_a_run_are_known};
use laws_steps_again::{
    a_recorded_step_that_does_not_fail_completed,
    a_script_of_recorded_outcomes_has_what_was_recorded, what_is_recorded_goes_as_the_steps_went,
    what_was_read_back_is_followed,
};
use laws_waits::{
    a_recorded_script_has_the_steps_that_began, a_work_goes_alike_with_its_recorded_script,
    waits_that_a_stream_kept_come_again,
};

/// Of a stream that was read back, with a graph of its waits, `record` knows the steps that begin.
pub fn the_steps_of_what_was_read_back_are_known()
    ensures { (work : Work) (lanes : ℕ) (events : List Event) (reading : Reading) (begun : Begun) (loose notes : List Note)
        (recorded : List (Option RecordedStep)) (left : List Note) (graph : List ℕ) (waits : List (List ℕ))
        → IsReadBack work lanes events reading begun loose notes recorded left
        → AreGraphWaits work.plan.changes graph waits → StatesWaits work lanes waits
        → IsKnown work lanes begun recorded waits }
{
    what_is_recorded_goes_as_the_steps_went();
    what_was_read_back_is_followed();
    a_recorded_step_that_does_not_fail_completed();
    lines_come_in_the_order_of_messages();
    the_steps_of_a_run_are_known();
}

/// A work goes alike with the script that `record` makes of its stream, with a graph of its waits.
/// `outcomes`: the script has the outcomes that were recorded.
pub fn a_work_goes_alike_with_the_script_of_its_stream()
    ensures alike { (work : Work) (lanes : ℕ) (begun : Begun) (recorded : List (Option RecordedStep))
        (waits after early : List (List ℕ)) (choices : Choices)
        → IsKnown work lanes begun recorded waits → choices.begins ≡ false
        → AreRecordedWaits (steps_of_plan begun recorded) (Some waits) choices after early
        → GoesAlike work (with_script work (written work.plan.changes (recorded_script work.plan begun recorded after))) lanes }
    ensures outcomes { (work : Work) (lanes : ℕ) (events : List Event) (reading : Reading) (begun : Begun) (loose notes : List Note)
        (recorded : List (Option RecordedStep)) (left : List Note) (waits after early : List (List ℕ)) (choices : Choices)
        → IsReadBack work lanes events reading begun loose notes recorded left
        → IsKnown work lanes begun recorded waits → choices.begins ≡ false
        → AreRecordedWaits (steps_of_plan begun recorded) (Some waits) choices after early
        → HasRecorded work lanes recorded (written work.plan.changes (recorded_script work.plan begun recorded after)) }
{
    what_is_recorded_goes_as_the_steps_went();
    a_script_of_recorded_outcomes_has_what_was_recorded();
    a_recorded_script_has_the_steps_that_began();
    a_work_goes_alike_with_its_recorded_script();
    waits_that_a_stream_kept_come_again();
}
