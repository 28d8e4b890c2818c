//! Streams in Terraform's form.

ghost use Rattle.std.specs.Prelude.{◌≡◌, ◌<◌, ◌++◌, ℕ, List, [], map, Ok, Option, Some, false, true};
ghost use Rattle.serde_json.specs.Data.{no_members};
ghost use Rattle.apply_events.specs.Totals.{totals_of};
ghost use Rattle.apply_events.specs.Waits.TimeLine.{IsTimeLine};
ghost use Rattle.apply_events.specs.declared.event.Event.{Event};
ghost use Rattle.apply_model.specs.Plan.SavedPlan.{SavedPlan};
ghost use Rattle.apply_model.specs.Script.Outcome.{is_warned};
ghost use Rattle.apply_model.specs.Script.OutcomeMap.{OutcomeMap, outcome_of};
ghost use Rattle.apply_model.specs.declared.details.note.Note.{Note};
ghost use Rattle.apply_plan_terraform.specs.Extras.{extras_of_bytes, with_notes};
ghost use Rattle.apply_plan_terraform.specs.ReadDetails.{DetailsOfPlan, details_of};
ghost use Rattle.apply_run.specs.InForm.{WasAppliedInFormAndLanes};
ghost use Rattle.apply_run.specs.Read.{StatedInputs, extras_of, is_unfinished};
ghost use Rattle.apply_run.specs.Run.{SinkState};
ghost use Rattle.apply_text_terraform.specs.declared.form.Form.TheVariants.{Terraform};
ghost use Rattle.apply_run.specs.declared.form_report.FormReport.{FormReport};
ghost use Rattle.apply_text.specs.Start.{end_of_starts};
ghost use Rattle.apply_text.specs.declared.operation.Operation.{Operation};
ghost use Rattle.apply_text_terraform.specs.Message.{diagnostic_address};
ghost use Rattle.apply_writer.specs.Stream.Form.{stream_in};
ghost use Rattle.apply_writer.specs.Stream.Terraform.{StreamExtras, terraform_form};
ghost use Rattle.laws_again.specs.Streams.{ReadsAsItIs, inputs_of};
ghost use Rattle.laws_again.specs.TerraformStreams.{AreExtrasAgain, IsRunInForm, IsStreamInLanesInForm, IsShownWhole, IsToldWholeInForm, terraform_reading};
ghost use Rattle.laws_begun.specs.Followed.{HasAddressesApart};
ghost use Rattle.laws_lanes.specs.Alike.{GoesAlike};
ghost use Rattle.laws_lines.specs.Reading.{outputs_read};
ghost use Rattle.laws_own_streams.specs.Runs.{shown_in_form, without_hooks};
ghost use Rattle.laws_record.specs.Extras.{outputs_by_name};
ghost use Rattle.laws_record.specs.Writable.{written};
ghost use Rattle.laws_steps_again.specs.Again.{HasRecorded};
ghost use Rattle.laws_steps_again.specs.ReadBack.{IsReadBack};
ghost use Rattle.laws_texts.specs.TimeLines.{notes_by_ends};
ghost use Rattle.laws_waits.specs.Scripts.{recorded_script};
ghost use Rattle.stream_lines.specs.Cut.{cut_lines};
ghost use Rattle.stream_record_cli.specs.Graphs.{AreGraphWaits};
ghost use Rattle.stream_record_cli.specs.Recorded.{IsScriptOfBytes};
ghost use Rattle.stream_record_cli.specs.declared.command.recording.StreamChoice.{StreamChoice};
ghost use Rattle.stream_record_outcomes.specs.Assignment.{considered};
ghost use Rattle.stream_record_outcomes.specs.declared.recorded_step.RecordedStep.{RecordedStep};
ghost use Rattle.stream_record_script.specs.Outputs.{script_outputs};
ghost use Rattle.stream_record_script.specs.Recordings.{PlanRead, choices_of, circumstances_of, notes_in, steps_in};
ghost use Rattle.stream_record_script.specs.Runs.{steps_of_plan};
ghost use Rattle.stream_record_script.specs.declared.recording.Wishes.{Wishes};
ghost use Rattle.stream_record_steps.specs.Begun.{Begun};
ghost use Rattle.stream_record_stream.specs.Reading.{read_of};
ghost use Rattle.stream_record_stream.specs.Streams.{StreamRead};
ghost use Rattle.stream_record_waits.specs.Recorded.{AreRecordedWaits};

use crate::known::{
    a_work_goes_alike_with_the_script_of_its_stream, the_steps_of_what_was_read_back_are_known,
};
use laws_begun::{
    a_run_of_what_was_read_can_be_followed, hook_messages_of_a_run_are_of_whole_steps,
};
use laws_lanes::works_that_go_alike_have_the_same_hook_messages;
use laws_outputs::outputs_that_were_read_come_again;
use laws_own_streams::{
    a_run_of_a_finished_plan_is_read_in_terraforms_form, shallow_diagnostics_are_read_whole,
};
use laws_reads::the_steps_of_a_run_are_recorded;
use laws_record::a_run_in_form_reads_back_outputs_and_diagnostics;
use laws_recorded::a_run_accepts_each_script_that_record_writes;
use laws_run::{
    each_object_is_named_once, no_stream_depends_on_a_sensitive_value, time_lines_are_unique,
};
use laws_steps_again::{
    a_run_of_our_own_can_be_followed, recorded_diagnostics_come_again,
    recorded_outcomes_end_as_the_steps_ended, what_is_recorded_goes_as_the_steps_went,
};
use laws_texts::time_lines_that_end_alike_have_the_same_stream_in_terraforms_form;

/// What `record` reads back of a run in Terraform's form.
///
/// Terraform finished the plan. `back`: its steps, and the diagnostics that `record` considers.
/// `notes`: all diagnostics, as they are. `outputs`: the outputs that the stream shows.
pub fn a_run_is_read_back_in_terraforms_form()
    ensures back { (plan : List ℕ) (script : Option (List ℕ)) (stated : StatedInputs) (lanes start : ℕ) (operation : Operation)
        (events : List Event) (of_plan : PlanRead) (read : StreamRead)
        → IsRunInForm plan script stated lanes events → start < end_of_starts
        → HasAddressesApart stated.plan → ((c k : ℕ) → is_warned (outcome_of stated.script c k).result ≡ false)
        → IsShownWhole stated → is_unfinished stated.details.note ≡ false → of_plan.note ≡ stated.details.note
        → read_of stated.plan false 0 (cut_lines (stream_in (terraform_form stated.plan stated.script (extras_of stated) start operation) events)) ≡ Ok read
        → IsReadBack (without_hooks stated.plan stated.script) lanes events
        (terraform_reading stated.plan stated.script stated.details.changes start) read.begun (map shown_in_form stated.extras.notes)
        (considered (circumstances_of of_plan.note read) read.notes) (steps_in of_plan read) (notes_in of_plan read) }
    ensures notes { (plan : List ℕ) (script : Option (List ℕ)) (stated : StatedInputs) (lanes start : ℕ) (operation : Operation)
        (events : List Event) (read : StreamRead)
        → IsRunInForm plan script stated lanes events → start < end_of_starts
        → ((c k : ℕ) → is_warned (outcome_of stated.script c k).result ≡ false)
        → IsShownWhole stated → is_unfinished stated.details.note ≡ false
        → read_of stated.plan false 0 (cut_lines (stream_in (terraform_form stated.plan stated.script (extras_of stated) start operation) events)) ≡ Ok read
        → read.notes ≡ notes_by_ends diagnostic_address stated.plan stated.script events ++ (extras_of stated).notes }
    ensures outputs { (plan : List ℕ) (script : Option (List ℕ)) (stated : StatedInputs) (lanes start : ℕ) (operation : Operation)
        (events : List Event) (read : StreamRead)
        → IsRunInForm plan script stated lanes events → start < end_of_starts
        → ((c k : ℕ) → is_warned (outcome_of stated.script c k).result ≡ false)
        → IsShownWhole stated → is_unfinished stated.details.note ≡ false
        → read_of stated.plan false 0 (cut_lines (stream_in (terraform_form stated.plan stated.script (extras_of stated) start operation) events)) ≡ Ok read
        → read.outputs ≡ outputs_read (extras_of stated) operation (totals_of stated.plan events) }
{
    a_run_of_what_was_read_can_be_followed();
    hook_messages_of_a_run_are_of_whole_steps();
    a_run_of_our_own_can_be_followed();
    a_run_of_a_finished_plan_is_read_in_terraforms_form();
    shallow_diagnostics_are_read_whole();
    the_steps_of_a_run_are_recorded();
}

/// Of the script that `record` writes of a stream, Terraform's form reads back the outputs and the
/// diagnostics of no step that `record` found in the stream.
pub fn outputs_and_diagnostics_of_a_stream_are_read_back()
    ensures { (plan : List ℕ) (graph : Option (List ℕ)) (choice : StreamChoice) (stream text warnings : List ℕ)
        (is : IsScriptOfBytes plan graph choice stream text warnings)
        → extras_of_bytes is.is.parts.details.details.outputs text
        ≡ Ok (with_notes (outputs_by_name (script_outputs is.is.outputs is.is.read.outputs) no_members)
        (notes_in (record { plan = is.saved; note = is.is.note; outputs = is.is.outputs }) is.is.read)) }
{
    each_object_is_named_once();
    a_run_in_form_reads_back_outputs_and_diagnostics();
}

/// A run that was read back has the same stream with another script that has the recorded outcomes,
/// and with which the work goes alike, if what is stated beyond the steps is told again.
pub fn a_run_that_was_read_back_has_the_same_stream_in_terraforms_form()
    ensures { (saved : SavedPlan) (steps other : OutcomeMap) (extras other_extras : StreamExtras) (lanes start : ℕ) (operation : Operation)
        (events others : List Event) (begun : Begun) (loose notes : List Note) (recorded : List (Option RecordedStep)) (left : List Note)
        → IsReadBack (without_hooks saved steps) lanes events (terraform_reading saved steps extras.details start) begun loose notes recorded left
        → GoesAlike (without_hooks saved steps) (without_hooks saved other) lanes
        → HasRecorded (without_hooks saved steps) lanes recorded other
        → IsTimeLine (without_hooks saved other) lanes others
        → AreExtrasAgain saved steps extras other_extras operation events notes left
        → stream_in (terraform_form saved other other_extras start operation) others
        ≡ stream_in (terraform_form saved steps extras start operation) events }
{
    works_that_go_alike_have_the_same_hook_messages();
    time_lines_are_unique();
    what_is_recorded_goes_as_the_steps_went();
    recorded_diagnostics_come_again();
    recorded_outcomes_end_as_the_steps_ended();
    no_stream_depends_on_a_sensitive_value();
    time_lines_that_end_alike_have_the_same_stream_in_terraforms_form();
}

/// Another script that has the outcomes that `record` read back of the stream of a run, and with
/// which the work goes alike, has the same stream. Its outputs and its diagnostics of no step are
/// those that `record` found.
pub fn a_script_that_goes_alike_has_the_stream_of_its_run_in_terraforms_form()
    ensures { (plan : List ℕ) (script : Option (List ℕ)) (stated : StatedInputs) (other : OutcomeMap) (other_extras : StreamExtras)
        (lanes start : ℕ) (operation : Operation) (events others : List Event) (of_plan : PlanRead) (read : StreamRead)
        → IsRunInForm plan script stated lanes events → start < end_of_starts
        → HasAddressesApart stated.plan → ((c k : ℕ) → is_warned (outcome_of stated.script c k).result ≡ false)
        → IsShownWhole stated → is_unfinished stated.details.note ≡ false → of_plan.note ≡ stated.details.note
        → read_of stated.plan false 0 (cut_lines (stream_in (terraform_form stated.plan stated.script (extras_of stated) start operation) events)) ≡ Ok read
        → GoesAlike (without_hooks stated.plan stated.script) (without_hooks stated.plan other) lanes
        → HasRecorded (without_hooks stated.plan stated.script) lanes (steps_in of_plan read) other
        → of_plan.outputs ≡ stated.details.outputs
        → other_extras ≡ extras_of (record stated {
          extras = with_notes (outputs_by_name (script_outputs of_plan.outputs read.outputs) no_members) (notes_in of_plan read);
        })
        → IsTimeLine (without_hooks stated.plan other) lanes others
        → stream_in (terraform_form stated.plan other other_extras start operation) others
        ≡ stream_in (terraform_form stated.plan stated.script (extras_of stated) start operation) events }
{
    a_run_is_read_back_in_terraforms_form();
    outputs_that_were_read_come_again();
    a_run_that_was_read_back_has_the_same_stream_in_terraforms_form();
}

/// The script that is recorded of the stream of a run, with a graph of its waits, has the same
/// stream. Its outputs and its diagnostics of no step are those that `record` found.
pub fn a_recorded_script_has_the_stream_of_its_run_in_terraforms_form()
    ensures { (plan : List ℕ) (script : Option (List ℕ)) (stated : StatedInputs) (other : OutcomeMap) (other_extras : StreamExtras)
        (lanes start : ℕ) (operation : Operation) (events others : List Event) (graph : List ℕ) (waits after early : List (List ℕ))
        (of_plan : PlanRead) (read : StreamRead) (wishes : Wishes)
        → IsRunInForm plan script stated lanes events → start < end_of_starts
        → IsToldWholeInForm stated lanes graph → is_unfinished stated.details.note ≡ false → of_plan.note ≡ stated.details.note
        → wishes.begins ≡ false
        → read_of stated.plan false 0 (cut_lines (stream_in (terraform_form stated.plan stated.script (extras_of stated) start operation) events)) ≡ Ok read
        → AreGraphWaits stated.plan.changes graph waits
        → AreRecordedWaits (steps_of_plan read.begun (steps_in of_plan read)) (Some waits) (choices_of of_plan wishes read) after early
        → other ≡ written stated.plan.changes (recorded_script stated.plan read.begun (steps_in of_plan read) after)
        → of_plan.outputs ≡ stated.details.outputs
        → other_extras ≡ extras_of (record stated {
          extras = with_notes (outputs_by_name (script_outputs of_plan.outputs read.outputs) no_members) (notes_in of_plan read);
        })
        → IsTimeLine (without_hooks stated.plan other) lanes others
        → stream_in (terraform_form stated.plan other other_extras start operation) others
        ≡ stream_in (terraform_form stated.plan stated.script (extras_of stated) start operation) events }
{
    a_run_is_read_back_in_terraforms_form();
    the_steps_of_what_was_read_back_are_known();
    a_work_goes_alike_with_the_script_of_its_stream();
    a_script_that_goes_alike_has_the_stream_of_its_run_in_terraforms_form();
}

/// A plan that Terraform did not finish has one stream in Terraform's form, whatever the script
/// says: the plan is applied without changes.
pub fn a_plan_left_unfinished_has_one_stream()
    ensures { (plan : List ℕ) (script other : Option (List ℕ)) (details : DetailsOfPlan) (lanes start : ℕ) (operation : Operation)
        (stream again : List ℕ) → details_of plan ≡ Some details → is_unfinished details.note ≡ true
        → IsStreamInLanesInForm plan script lanes start operation stream
        → IsStreamInLanesInForm plan other lanes start operation again
        → again ≡ stream }
{
    time_lines_are_unique();
    no_stream_depends_on_a_sensitive_value();
}

/// A stream of our own comes again, in Terraform's form. The script that `record` writes of the
/// stream of a run in lanes, with a graph of its waits, tells the same bytes in as many lanes. The
/// run may fail, and may show outputs, also sensitive ones: their values stand in no stream.
///
/// `stream`: a stream of the recorded script is the one that was recorded. `applied`: so is what
/// `apply_run::apply_bytes_in_form_and_lanes` writes with it.
pub fn a_stream_of_our_own_comes_again_in_terraforms_form()
    ensures stream { (plan : List ℕ) (script : Option (List ℕ)) (graph : List ℕ) (choice : StreamChoice) (lanes start : ℕ)
        (operation : Operation) (stream text warnings again : List ℕ)
        → (own : IsStreamInLanesInForm plan script lanes start operation stream) → start < end_of_starts
        → IsToldWholeInForm own.stated lanes graph → ReadsAsItIs choice
        → IsScriptOfBytes plan (Some graph) choice stream text warnings
        → IsStreamInLanesInForm plan (Some text) lanes start operation again
        → again ≡ stream }
    ensures applied { (plan : List ℕ) (script : Option (List ℕ)) (graph : List ℕ) (choice : StreamChoice) (lanes start : ℕ)
        (operation : Operation) (stream text warnings again : List ℕ) (report other_report : FormReport) (before after other_before other_after : SinkState)
        → (applied : WasAppliedInFormAndLanes Terraform (inputs_of plan script) lanes start operation report before after)
        → before.bytes ≡ Some [] → after.bytes ≡ Some stream → start < end_of_starts
        → IsToldWholeInForm applied.applied.read lanes graph → ReadsAsItIs choice
        → IsScriptOfBytes plan (Some graph) choice stream text warnings
        → WasAppliedInFormAndLanes Terraform (inputs_of plan (Some text)) lanes start operation other_report other_before other_after
        → other_before.bytes ≡ Some [] → other_after.bytes ≡ Some again
        → again ≡ stream }
{
    a_run_accepts_each_script_that_record_writes();
    outputs_and_diagnostics_of_a_stream_are_read_back();
    a_plan_left_unfinished_has_one_stream();
    a_recorded_script_has_the_stream_of_its_run_in_terraforms_form();
}
