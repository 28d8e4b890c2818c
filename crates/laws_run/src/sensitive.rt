//! Laws of sensitive values: nothing that a run writes depends on them. Each function does nothing,
//! or calls the laws that its own law follows from: its contract is the law.

ghost use Rattle.std.specs.Prelude.{List, Some, map, ℕ, ◌≡◌};
ghost use Rattle.apply_model.specs.Plan.SavedPlan.{SavedPlan};
ghost use Rattle.apply_model.specs.Script.OutcomeMap.{OutcomeMap};
ghost use Rattle.apply_model.specs.declared.details.change_details.ChangeDetails.{ChangeDetails};
ghost use Rattle.apply_model.specs.declared.details.note.Note.{Note};
ghost use Rattle.apply_model.specs.declared.details.output.Output.{Output};
ghost use Rattle.apply_events.specs.declared.event.Event.{Event};
ghost use Rattle.apply_text.specs.declared.operation.Operation.{Operation};
ghost use Rattle.apply_text_terraform.specs.Laws.{without_secret};
ghost use Rattle.apply_text_terraform.specs.declared.form.Form.TheVariants.{Terraform};
ghost use Rattle.apply_writer.specs.Stream.Form.{stream_in};
ghost use Rattle.apply_writer.specs.Stream.Terraform.{terraform_form};
ghost use Rattle.apply_writer.specs.declared.fault.Fault.{Fault};
ghost use Rattle.apply_run.specs.declared.form_report.FormReport.{FormReport};
ghost use Rattle.apply_run.specs.declared.refusal.Refusal.TheVariants as refusal;
ghost use Rattle.apply_run.specs.Bytes.{Inputs};
ghost use Rattle.apply_run.specs.FromBytes.{WasRefusedBy, WasReportedBy};
ghost use Rattle.apply_run.specs.InForm.{WasAppliedInFormAndLanes};
ghost use Rattle.apply_run.specs.Read.{IsStated, StatedInputs};
ghost use Rattle.apply_run.specs.Run.{SinkState};
ghost use Rattle.apply_run.specs.Schedule.{Schedule};
ghost use Rattle.laws_run.specs.Sensitive.{AreReadAlike, DifferInSecrets, HaveSameStream};

use crate::time_lines_are_unique;

/// No stream in Terraform's form depends on the value of a sensitive output.
///
/// `outputs`: two lists of outputs that differ only in sensitive values give the same stream.
/// `read`: two plans and scripts that were read give the same stream if they differ only in
/// sensitive values. `bytes`: the same holds of the bytes of plans and scripts. These may also
/// differ in each member that `DifferInSecrets` does not name.
pub fn no_stream_depends_on_a_sensitive_value()
    ensures outputs { (plan : SavedPlan) (script : OutcomeMap) (details : List ChangeDetails) (notes : List Note)
        (one other : List Output) (start : ℕ) (operation : Operation) (taken : List Event) → map without_secret one ≡ map without_secret other
        → stream_in (terraform_form plan script (record { details = details; notes = notes; outputs = one }) start operation) taken
        ≡ stream_in (terraform_form plan script (record { details = details; notes = notes; outputs = other }) start operation) taken }
    ensures read { (one other : StatedInputs) → AreReadAlike one other → HaveSameStream one other }
    ensures bytes { (one other : Inputs) (stated same : StatedInputs) → DifferInSecrets one other
        → IsStated one.plan one.script stated → IsStated other.plan other.script same → HaveSameStream stated same }
{}

/// No run in Terraform's form depends on the value of a sensitive output. What holds after a run of
/// one plan and script holds after a run of the other.
///
/// The law holds with workers and in lanes, whether the run succeeds or fails. Both plans and both
/// scripts can be read.
pub fn no_run_depends_on_a_sensitive_value()
    ensures applied { (one other : Inputs) (stated : StatedInputs) (schedule : Schedule) (start : ℕ) (operation : Operation) (report : FormReport)
        (before after : SinkState) → DifferInSecrets one other → IsStated other.plan other.script stated
        → WasReportedBy schedule Terraform one start operation report before after
        → WasReportedBy schedule Terraform other start operation report before after }
    ensures failed { (one other : Inputs) (stated : StatedInputs) (schedule : Schedule) (start : ℕ) (operation : Operation) (fault : Fault)
        (before after : SinkState) → DifferInSecrets one other → IsStated other.plan other.script stated
        → WasRefusedBy schedule Terraform one start operation (refusal.Fault fault) before after
        → WasRefusedBy schedule Terraform other start operation (refusal.Fault fault) before after }
{}

/// In lanes both runs write the same bytes, if the sink knows which bytes it has.
pub fn no_byte_in_lanes_depends_on_a_sensitive_value()
    ensures { (one other : Inputs) (lanes start : ℕ) (operation : Operation) (first second : FormReport) (bytes : List ℕ)
        (before after same : SinkState) → DifferInSecrets one other → before.bytes ≡ Some bytes
        → WasAppliedInFormAndLanes Terraform one lanes start operation first before after
        → WasAppliedInFormAndLanes Terraform other lanes start operation second before same
        → after.bytes ≡ same.bytes }
{
    time_lines_are_unique();
}
