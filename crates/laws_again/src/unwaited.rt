//! Streams of runs in which no step waits, recorded without a graph.

ghost use Rattle.std.specs.Prelude.{◌≡◌, ◌<◌, ℕ, List, [], None, Ok, Option, Some, false};
ghost use Rattle.apply_events.specs.Step.{Work};
ghost use Rattle.apply_events.specs.Waits.TimeLine.{IsTimeLine};
ghost use Rattle.apply_events.specs.declared.event.Event.{Event};
ghost use Rattle.apply_model.specs.Plan.SavedPlan.{SavedPlan};
ghost use Rattle.apply_model.specs.Script.OutcomeMap.{OutcomeMap};
ghost use Rattle.apply_model.specs.declared.details.note.Note.{Note};
ghost use Rattle.apply_run.specs.InForm.{WasAppliedInLanes};
ghost use Rattle.apply_run.specs.Run.{SinkState};
ghost use Rattle.apply_text.specs.Start.{end_of_starts};
ghost use Rattle.apply_text.specs.declared.operation.Operation.{Operation};
ghost use Rattle.apply_writer.specs.Stream.Form.{plain_form, stream_in};
ghost use Rattle.apply_writer.specs.declared.report.Report.{Report};
ghost use Rattle.laws_again.specs.Streams.{IsRunInLanes, IsStreamInLanes, inputs_of};
ghost use Rattle.laws_again.specs.WithoutWaits.{AreWithoutWaits, IsToldWithoutWaits, ReadsInLanes, line_at};
ghost use Rattle.laws_lanes.specs.Alike.{GoesAlike};
ghost use Rattle.laws_own_streams.specs.Runs.{without_hooks};
ghost use Rattle.laws_queue.specs.Dealing.{NamesNone};
ghost use Rattle.laws_queue.specs.OfRun.{IsOfRun};
ghost use Rattle.laws_record.specs.Writable.{written};
ghost use Rattle.laws_steps_again.specs.Again.{HasRecorded};
ghost use Rattle.laws_steps_again.specs.ReadBack.{IsReadBack, Reading};
ghost use Rattle.laws_waits.specs.Again.{IsKnown, with_script};
ghost use Rattle.laws_waits.specs.Scripts.{recorded_script};
ghost use Rattle.stream_lines.specs.Cut.{cut_lines};
ghost use Rattle.stream_record_cli.specs.Recorded.{IsScriptOfBytes};
ghost use Rattle.stream_record_cli.specs.declared.command.recording.StreamChoice.{StreamChoice};
ghost use Rattle.stream_record_outcomes.specs.declared.recorded_step.RecordedStep.{RecordedStep};
ghost use Rattle.stream_record_script.specs.Recordings.{PlanRead, choices_of, steps_in};
ghost use Rattle.stream_record_script.specs.Runs.{steps_of_plan};
ghost use Rattle.stream_record_script.specs.declared.recording.Wishes.{Wishes};
ghost use Rattle.stream_record_steps.specs.Begun.{Begun};
ghost use Rattle.stream_record_stream.specs.Reading.{read_of};
ghost use Rattle.stream_record_stream.specs.Streams.{StreamRead};
ghost use Rattle.stream_record_waits.specs.Recorded.{AreRecordedWaits, AreSoundWaits};
ghost use Rattle.stream_record_waits.specs.declared.choices.Choices.{Choices};

use crate::plain::{a_run_is_read_back, a_run_that_was_read_back_has_the_same_stream};
use laws_queue::steps_of_a_run_without_waits_get_no_waits;
use laws_recorded::a_run_accepts_each_script_that_record_writes;
use laws_steps_again::{
    a_script_of_recorded_outcomes_has_what_was_recorded, what_is_recorded_goes_as_the_steps_went,
    what_was_read_back_is_followed,
};
use laws_waits::{
    a_recorded_script_has_the_steps_that_began, a_work_goes_alike_with_its_recorded_script,
};

/// Of a stream that was read back, without a graph, `record` knows the steps that begin, if no step
/// waits and it found no wait for a step that began.
pub fn the_steps_of_a_run_without_waits_are_known()
    ensures { (work : Work) (lanes : ℕ) (events : List Event) (reading : Reading) (begun : Begun) (loose notes : List Note)
        (recorded : List (Option RecordedStep)) (left : List Note) (choices : Choices) (after early : List (List ℕ))
        → IsReadBack work lanes events reading begun loose notes recorded left → NamesNone work
        → AreRecordedWaits (steps_of_plan begun recorded) None choices after early
        → AreSoundWaits (steps_of_plan begun recorded) after
        → AreWithoutWaits (steps_of_plan begun recorded) after
        → IsKnown work lanes begun recorded after }
{
    what_is_recorded_goes_as_the_steps_went();
}

/// The script of the steps that `record` knows, with waits that are those of the work, has the
/// recorded outcomes. `alike`: the work goes alike with it.
pub fn a_script_of_known_steps_has_what_was_recorded()
    ensures alike { (work : Work) (lanes : ℕ) (begun : Begun) (recorded : List (Option RecordedStep)) (after : List (List ℕ))
        → IsKnown work lanes begun recorded after
        → GoesAlike work (with_script work (written work.plan.changes (recorded_script work.plan begun recorded after))) lanes }
    ensures outcomes { (work : Work) (lanes : ℕ) (events : List Event) (reading : Reading) (begun : Begun) (loose notes : List Note)
        (recorded : List (Option RecordedStep)) (left : List Note) (after : List (List ℕ))
        → IsReadBack work lanes events reading begun loose notes recorded left
        → IsKnown work lanes begun recorded after
        → HasRecorded work lanes recorded (written work.plan.changes (recorded_script work.plan begun recorded after)) }
{
    what_is_recorded_goes_as_the_steps_went();
    a_script_of_recorded_outcomes_has_what_was_recorded();
    a_recorded_script_has_the_steps_that_began();
    a_work_goes_alike_with_its_recorded_script();
}

/// The script that is recorded of the stream of a run in which no step waits, without a graph, has
/// the same stream, if it states no wait for a step that began.
pub fn a_recorded_script_without_waits_has_the_stream_of_its_run()
    ensures { (plan : List ℕ) (script : Option (List ℕ)) (saved : SavedPlan) (steps other : OutcomeMap) (lanes start : ℕ) (operation : Operation)
        (events others : List Event) (after early : List (List ℕ)) (of_plan : PlanRead) (read : StreamRead) (wishes : Wishes)
        → IsRunInLanes plan script saved steps lanes events → start < end_of_starts
        → IsToldWithoutWaits saved steps
        → read_of saved false 0 (cut_lines (stream_in (plain_form saved steps start operation) events)) ≡ Ok read
        → AreRecordedWaits (steps_of_plan read.begun (steps_in of_plan read)) None (choices_of of_plan wishes read) after early
        → AreSoundWaits (steps_of_plan read.begun (steps_in of_plan read)) after
        → AreWithoutWaits (steps_of_plan read.begun (steps_in of_plan read)) after
        → other ≡ written saved.changes (recorded_script saved read.begun (steps_in of_plan read) after)
        → IsTimeLine (without_hooks saved other) lanes others
        → stream_in (plain_form saved other start operation) others ≡ stream_in (plain_form saved steps start operation) events }
{
    a_run_is_read_back();
    the_steps_of_a_run_without_waits_are_known();
    a_script_of_known_steps_has_what_was_recorded();
    a_run_that_was_read_back_has_the_same_stream();
}

/// The steps of a stream that was read back are those of its run.
pub fn the_steps_of_what_was_read_back_are_of_the_run()
    ensures { (work : Work) (lanes : ℕ) (events : List Event) (reading : Reading) (begun : Begun) (loose notes : List Note)
        (recorded : List (Option RecordedStep)) (left : List Note)
        → IsReadBack work lanes events reading begun loose notes recorded left
        → IsOfRun work events (line_at reading) (steps_of_plan begun recorded) }
{
    what_is_recorded_goes_as_the_steps_went();
    what_was_read_back_is_followed();
}

/// Without a graph, `record` finds no wait for a step that began in the stream of a run in which no
/// step waits.
pub fn a_stream_without_waits_gets_none()
    ensures { (work : Work) (lanes : ℕ) (events : List Event) (reading : Reading) (begun : Begun) (loose notes : List Note)
        (recorded : List (Option RecordedStep)) (left : List Note) (choices : Choices) (after early : List (List ℕ))
        → IsReadBack work lanes events reading begun loose notes recorded left → NamesNone work → choices.lanes ≡ lanes
        → AreRecordedWaits (steps_of_plan begun recorded) None choices after early
        → AreWithoutWaits (steps_of_plan begun recorded) after }
{
    the_steps_of_what_was_read_back_are_of_the_run();
    steps_of_a_run_without_waits_get_no_waits();
}

/// A stream of our own in which no step waits comes again, in the default form. The script that
/// `record` writes of it without a graph, for as many lanes, tells the same bytes in these lanes.
///
/// `stream`: a stream of the recorded script is the one that was recorded. `applied`: so is what
/// `apply_run::apply_bytes_in_lanes` writes with it.
pub fn a_stream_without_waits_comes_again()
    ensures stream { (plan : List ℕ) (script : Option (List ℕ)) (choice : StreamChoice) (lanes start : ℕ)
        (operation : Operation) (stream text warnings again : List ℕ)
        → (own : IsStreamInLanes plan script lanes start operation stream) → start < end_of_starts
        → IsToldWithoutWaits own.saved own.steps → ReadsInLanes choice lanes
        → IsScriptOfBytes plan None choice stream text warnings
        → IsStreamInLanes plan (Some text) lanes start operation again
        → again ≡ stream }
    ensures applied { (plan : List ℕ) (script : Option (List ℕ)) (choice : StreamChoice) (lanes start : ℕ)
        (operation : Operation) (stream text warnings again : List ℕ) (report other_report : Report) (before after other_before other_after : SinkState)
        → (applied : WasAppliedInLanes (inputs_of plan script) lanes start operation report before after)
        → before.bytes ≡ Some [] → after.bytes ≡ Some stream → start < end_of_starts
        → IsToldWithoutWaits applied.read.plan applied.read.script → ReadsInLanes choice lanes
        → IsScriptOfBytes plan None choice stream text warnings
        → WasAppliedInLanes (inputs_of plan (Some text)) lanes start operation other_report other_before other_after
        → other_before.bytes ≡ Some [] → other_after.bytes ≡ Some again
        → again ≡ stream }
{
    a_run_accepts_each_script_that_record_writes();
    a_run_is_read_back();
    a_stream_without_waits_gets_none();
    a_recorded_script_without_waits_has_the_stream_of_its_run();
}
