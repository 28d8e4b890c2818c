//! Streams in the default form.

ghost use Rattle.std.specs.Prelude.{◌≡◌, ◌<◌, ℕ, List, [], Ok, Option, Some, false};
ghost use Rattle.apply_events.specs.Waits.TimeLine.{IsTimeLine};
ghost use Rattle.apply_events.specs.declared.event.Event.{Event};
ghost use Rattle.apply_model.specs.Plan.SavedPlan.{SavedPlan};
ghost use Rattle.apply_model.specs.Script.Outcome.{is_warned};
ghost use Rattle.apply_model.specs.Script.OutcomeMap.{OutcomeMap, outcome_of};
ghost use Rattle.apply_model.specs.declared.details.note.Note.{Note};
ghost use Rattle.apply_run.specs.InForm.{WasAppliedInLanes};
ghost use Rattle.apply_run.specs.Run.{SinkState};
ghost use Rattle.apply_text.specs.Start.{end_of_starts};
ghost use Rattle.apply_text.specs.declared.operation.Operation.{Operation};
ghost use Rattle.apply_writer.specs.Stream.Form.{plain_form, stream_in};
ghost use Rattle.apply_writer.specs.declared.report.Report.{Report};
ghost use Rattle.laws_again.specs.ReadBack.{plain_reading};
ghost use Rattle.laws_again.specs.Streams.{IsRunInLanes, IsStreamInLanes, IsToldWhole, ReadsAsItIs, inputs_of};
ghost use Rattle.laws_begun.specs.Followed.{HasAddressesApart};
ghost use Rattle.laws_lanes.specs.Alike.{GoesAlike};
ghost use Rattle.laws_own_streams.specs.Runs.{without_hooks};
ghost use Rattle.laws_record.specs.Writable.{written};
ghost use Rattle.laws_steps_again.specs.Again.{HasRecorded};
ghost use Rattle.laws_steps_again.specs.ReadBack.{IsReadBack};
ghost use Rattle.laws_waits.specs.Scripts.{recorded_script};
ghost use Rattle.stream_lines.specs.Cut.{cut_lines};
ghost use Rattle.stream_record_cli.specs.Graphs.{AreGraphWaits};
ghost use Rattle.stream_record_cli.specs.Recorded.{IsScriptOfBytes};
ghost use Rattle.stream_record_cli.specs.declared.command.recording.StreamChoice.{StreamChoice};
ghost use Rattle.stream_record_outcomes.specs.declared.recorded_step.RecordedStep.{RecordedStep};
ghost use Rattle.stream_record_script.specs.Recordings.{PlanRead, choices_of, notes_in, steps_in};
ghost use Rattle.stream_record_script.specs.Runs.{steps_of_plan};
ghost use Rattle.stream_record_script.specs.declared.recording.Wishes.{Wishes};
ghost use Rattle.stream_record_steps.specs.Begun.{Begun};
ghost use Rattle.stream_record_stream.specs.Reading.{read_of};
ghost use Rattle.stream_record_stream.specs.Streams.{StreamRead};
ghost use Rattle.stream_record_waits.specs.Recorded.{AreRecordedWaits};

use crate::known::{
    a_work_goes_alike_with_the_script_of_its_stream, the_steps_of_what_was_read_back_are_known,
};
use laws_begun::{
    a_run_of_what_was_read_can_be_followed, hook_messages_of_a_run_are_of_whole_steps,
};
use laws_lanes::works_that_go_alike_have_the_same_hook_messages;
use laws_own_streams::a_run_in_lanes_is_read;
use laws_reads::the_steps_of_a_run_are_recorded;
use laws_recorded::a_run_accepts_each_script_that_record_writes;
use laws_run::time_lines_are_unique;
use laws_steps_again::{
    a_run_of_our_own_can_be_followed, recorded_diagnostics_come_again,
    recorded_outcomes_end_as_the_steps_ended, what_is_recorded_goes_as_the_steps_went,
};
use laws_texts::time_lines_that_end_alike_have_the_same_stream;

/// What `record` reads back of a run in the default form.
pub fn a_run_is_read_back()
    ensures { (plan : List ℕ) (script : Option (List ℕ)) (saved : SavedPlan) (steps : OutcomeMap) (lanes start : ℕ) (operation : Operation)
        (events : List Event) (of_plan : PlanRead) (read : StreamRead)
        → IsRunInLanes plan script saved steps lanes events → start < end_of_starts
        → HasAddressesApart saved → ((c k : ℕ) → is_warned (outcome_of steps c k).result ≡ false)
        → read_of saved false 0 (cut_lines (stream_in (plain_form saved steps start operation) events)) ≡ Ok read
        → IsReadBack (without_hooks saved steps) lanes events (plain_reading saved steps start) read.begun [] read.notes
        (steps_in of_plan read) (notes_in of_plan read) }
{
    a_run_of_what_was_read_can_be_followed();
    hook_messages_of_a_run_are_of_whole_steps();
    a_run_of_our_own_can_be_followed();
    a_run_in_lanes_is_read();
    the_steps_of_a_run_are_recorded();
}

/// A run that was read back has the same stream with another script that has the recorded outcomes,
/// and with which the work goes alike.
pub fn a_run_that_was_read_back_has_the_same_stream()
    ensures { (saved : SavedPlan) (steps other : OutcomeMap) (lanes start : ℕ) (operation : Operation) (events others : List Event)
        (begun : Begun) (notes : List Note) (recorded : List (Option RecordedStep)) (left : List Note)
        → IsReadBack (without_hooks saved steps) lanes events (plain_reading saved steps start) begun [] notes recorded left
        → GoesAlike (without_hooks saved steps) (without_hooks saved other) lanes
        → HasRecorded (without_hooks saved steps) lanes recorded other
        → IsTimeLine (without_hooks saved other) lanes others
        → stream_in (plain_form saved other start operation) others ≡ stream_in (plain_form saved steps start operation) events }
{
    works_that_go_alike_have_the_same_hook_messages();
    time_lines_are_unique();
    what_is_recorded_goes_as_the_steps_went();
    recorded_diagnostics_come_again();
    recorded_outcomes_end_as_the_steps_ended();
    time_lines_that_end_alike_have_the_same_stream();
}

/// The script that is recorded of the stream of a run, with a graph of its waits, has the same
/// stream.
pub fn a_recorded_script_has_the_stream_of_its_run()
    ensures { (plan : List ℕ) (script : Option (List ℕ)) (saved : SavedPlan) (steps other : OutcomeMap) (lanes start : ℕ) (operation : Operation)
        (events others : List Event) (graph : List ℕ) (waits after early : List (List ℕ)) (of_plan : PlanRead) (read : StreamRead) (wishes : Wishes)
        → IsRunInLanes plan script saved steps lanes events → start < end_of_starts
        → IsToldWhole saved steps lanes graph → wishes.begins ≡ false
        → read_of saved false 0 (cut_lines (stream_in (plain_form saved steps start operation) events)) ≡ Ok read
        → AreGraphWaits saved.changes graph waits
        → AreRecordedWaits (steps_of_plan read.begun (steps_in of_plan read)) (Some waits) (choices_of of_plan wishes read) after early
        → other ≡ written saved.changes (recorded_script saved read.begun (steps_in of_plan read) after)
        → IsTimeLine (without_hooks saved other) lanes others
        → stream_in (plain_form saved other start operation) others ≡ stream_in (plain_form saved steps start operation) events }
{
    a_run_is_read_back();
    the_steps_of_what_was_read_back_are_known();
    a_work_goes_alike_with_the_script_of_its_stream();
    a_run_that_was_read_back_has_the_same_stream();
}

/// A stream of our own comes again, in the default form. The script that `record` writes of the
/// stream of a run in lanes, with a graph of its waits, tells the same bytes in as many lanes.
///
/// `stream`: a stream of the recorded script is the one that was recorded. `applied`: so is what
/// `apply_run::apply_bytes_in_lanes` writes with it.
pub fn a_stream_of_our_own_comes_again()
    ensures stream { (plan : List ℕ) (script : Option (List ℕ)) (graph : List ℕ) (choice : StreamChoice) (lanes start : ℕ)
        (operation : Operation) (stream text warnings again : List ℕ)
        → (own : IsStreamInLanes plan script lanes start operation stream) → start < end_of_starts
        → IsToldWhole own.saved own.steps lanes graph → ReadsAsItIs choice
        → IsScriptOfBytes plan (Some graph) choice stream text warnings
        → IsStreamInLanes plan (Some text) lanes start operation again
        → again ≡ stream }
    ensures applied { (plan : List ℕ) (script : Option (List ℕ)) (graph : List ℕ) (choice : StreamChoice) (lanes start : ℕ)
        (operation : Operation) (stream text warnings again : List ℕ) (report other_report : Report) (before after other_before other_after : SinkState)
        → (applied : WasAppliedInLanes (inputs_of plan script) lanes start operation report before after)
        → before.bytes ≡ Some [] → after.bytes ≡ Some stream → start < end_of_starts
        → IsToldWhole applied.read.plan applied.read.script lanes graph → ReadsAsItIs choice
        → IsScriptOfBytes plan (Some graph) choice stream text warnings
        → WasAppliedInLanes (inputs_of plan (Some text)) lanes start operation other_report other_before other_after
        → other_before.bytes ≡ Some [] → other_after.bytes ≡ Some again
        → again ≡ stream }
{
    a_run_accepts_each_script_that_record_writes();
    a_recorded_script_has_the_stream_of_its_run();
}
