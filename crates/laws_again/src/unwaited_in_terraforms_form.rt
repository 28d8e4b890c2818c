//! Streams in Terraform's form of runs in which no step waits, recorded without a graph.

ghost use Rattle.std.specs.Prelude.{◌≡◌, ◌<◌, ℕ, List, [], None, Ok, Option, Some, false};
ghost use Rattle.serde_json.specs.Data.{no_members};
ghost use Rattle.apply_events.specs.Waits.TimeLine.{IsTimeLine};
ghost use Rattle.apply_events.specs.declared.event.Event.{Event};
ghost use Rattle.apply_model.specs.Script.OutcomeMap.{OutcomeMap};
ghost use Rattle.apply_plan_terraform.specs.Extras.{with_notes};
ghost use Rattle.apply_run.specs.InForm.{WasAppliedInFormAndLanes};
ghost use Rattle.apply_run.specs.Read.{StatedInputs, extras_of, is_unfinished};
ghost use Rattle.apply_run.specs.Run.{SinkState};
ghost use Rattle.apply_text_terraform.specs.declared.form.Form.TheVariants.{Terraform};
ghost use Rattle.apply_run.specs.declared.form_report.FormReport.{FormReport};
ghost use Rattle.apply_text.specs.Start.{end_of_starts};
ghost use Rattle.apply_text.specs.declared.operation.Operation.{Operation};
ghost use Rattle.apply_writer.specs.Stream.Form.{stream_in};
ghost use Rattle.apply_writer.specs.Stream.Terraform.{StreamExtras, terraform_form};
ghost use Rattle.laws_again.specs.Streams.{inputs_of};
ghost use Rattle.laws_again.specs.TerraformStreams.{IsRunInForm, IsStreamInLanesInForm};
ghost use Rattle.laws_again.specs.WithoutWaits.{IsToldWithoutWaitsInForm, ReadsInLanes};
ghost use Rattle.laws_own_streams.specs.Runs.{without_hooks};
ghost use Rattle.laws_record.specs.Extras.{outputs_by_name};
ghost use Rattle.laws_record.specs.Writable.{written};
ghost use Rattle.laws_waits.specs.Scripts.{recorded_script};
ghost use Rattle.stream_lines.specs.Cut.{cut_lines};
ghost use Rattle.stream_record_cli.specs.Recorded.{IsScriptOfBytes};
ghost use Rattle.stream_record_cli.specs.declared.command.recording.StreamChoice.{StreamChoice};
ghost use Rattle.stream_record_script.specs.Outputs.{script_outputs};
ghost use Rattle.stream_record_script.specs.Recordings.{PlanRead, choices_of, notes_in, steps_in};
ghost use Rattle.stream_record_script.specs.Runs.{steps_of_plan};
ghost use Rattle.stream_record_script.specs.declared.recording.Wishes.{Wishes};
ghost use Rattle.stream_record_stream.specs.Reading.{read_of};
ghost use Rattle.stream_record_stream.specs.Streams.{StreamRead};
ghost use Rattle.stream_record_waits.specs.Recorded.{AreRecordedWaits, AreSoundWaits};

use crate::terraform::{
    a_plan_left_unfinished_has_one_stream, a_run_is_read_back_in_terraforms_form,
    a_script_that_goes_alike_has_the_stream_of_its_run_in_terraforms_form,
    outputs_and_diagnostics_of_a_stream_are_read_back,
};
use crate::unwaited::{
    a_script_of_known_steps_has_what_was_recorded, a_stream_without_waits_gets_none,
    the_steps_of_a_run_without_waits_are_known,
};
use laws_recorded::a_run_accepts_each_script_that_record_writes;

/// The script that is recorded of the stream of a run in which no step waits, without a graph and
/// for as many lanes, has the same stream. Its outputs and its diagnostics of no step are those
/// that `record` found.
pub fn a_recorded_script_without_waits_has_the_stream_of_its_run_in_terraforms_form()
    ensures { (plan : List ℕ) (script : Option (List ℕ)) (stated : StatedInputs) (other : OutcomeMap) (other_extras : StreamExtras)
        (lanes start : ℕ) (operation : Operation) (events others : List Event) (after early : List (List ℕ))
        (of_plan : PlanRead) (read : StreamRead) (wishes : Wishes)
        → IsRunInForm plan script stated lanes events → start < end_of_starts
        → IsToldWithoutWaitsInForm stated → is_unfinished stated.details.note ≡ false → of_plan.note ≡ stated.details.note → wishes.lanes ≡ lanes
        → read_of stated.plan false 0 (cut_lines (stream_in (terraform_form stated.plan stated.script (extras_of stated) start operation) events)) ≡ Ok read
        → AreRecordedWaits (steps_of_plan read.begun (steps_in of_plan read)) None (choices_of of_plan wishes read) after early
        → AreSoundWaits (steps_of_plan read.begun (steps_in of_plan read)) after
        → other ≡ written stated.plan.changes (recorded_script stated.plan read.begun (steps_in of_plan read) after)
        → of_plan.outputs ≡ stated.details.outputs
        → other_extras ≡ extras_of (record stated {
          extras = with_notes (outputs_by_name (script_outputs of_plan.outputs read.outputs) no_members) (notes_in of_plan read);
        })
        → IsTimeLine (without_hooks stated.plan other) lanes others
        → stream_in (terraform_form stated.plan other other_extras start operation) others
        ≡ stream_in (terraform_form stated.plan stated.script (extras_of stated) start operation) events }
{
    a_run_is_read_back_in_terraforms_form();
    a_stream_without_waits_gets_none();
    the_steps_of_a_run_without_waits_are_known();
    a_script_of_known_steps_has_what_was_recorded();
    a_script_that_goes_alike_has_the_stream_of_its_run_in_terraforms_form();
}

/// A stream of our own in which no step waits comes again, in Terraform's form. The script that
/// `record` writes of it without a graph, for as many lanes, tells the same bytes in these lanes.
///
/// `stream`: a stream of the recorded script is the one that was recorded. `applied`: so is what
/// `apply_run::apply_bytes_in_form_and_lanes` writes with it.
pub fn a_stream_without_waits_comes_again_in_terraforms_form()
    ensures stream { (plan : List ℕ) (script : Option (List ℕ)) (choice : StreamChoice) (lanes start : ℕ)
        (operation : Operation) (stream text warnings again : List ℕ)
        → (own : IsStreamInLanesInForm plan script lanes start operation stream) → start < end_of_starts
        → IsToldWithoutWaitsInForm own.stated → ReadsInLanes choice lanes
        → IsScriptOfBytes plan None choice stream text warnings
        → IsStreamInLanesInForm plan (Some text) lanes start operation again
        → again ≡ stream }
    ensures applied { (plan : List ℕ) (script : Option (List ℕ)) (choice : StreamChoice) (lanes start : ℕ)
        (operation : Operation) (stream text warnings again : List ℕ) (report other_report : FormReport) (before after other_before other_after : SinkState)
        → (applied : WasAppliedInFormAndLanes Terraform (inputs_of plan script) lanes start operation report before after)
        → before.bytes ≡ Some [] → after.bytes ≡ Some stream → start < end_of_starts
        → IsToldWithoutWaitsInForm applied.applied.read → ReadsInLanes choice lanes
        → IsScriptOfBytes plan None choice stream text warnings
        → WasAppliedInFormAndLanes Terraform (inputs_of plan (Some text)) lanes start operation other_report other_before other_after
        → other_before.bytes ≡ Some [] → other_after.bytes ≡ Some again
        → again ≡ stream }
{
    a_run_accepts_each_script_that_record_writes();
    outputs_and_diagnostics_of_a_stream_are_read_back();
    a_plan_left_unfinished_has_one_stream();
    a_recorded_script_without_waits_has_the_stream_of_its_run_in_terraforms_form();
}
