//! Reads the inputs of a run: a plan, an optional script for it, and for Terraform's form the extras
//! of both.

ghost use Rattle.std.specs.Prelude.{◌≡◌, [], if◌then◌else◌, IfErr, IfOk, List};
ghost use Rattle.std.specs.Option.{option_copied};
ghost use Rattle.apply_hooks.specs.declared.rule.Rule.{Rule};
ghost use Rattle.apply_plan_terraform.specs.Extras.{extras_view};
ghost use Rattle.apply_plan_terraform.specs.Notes as notes_spec;
ghost use Rattle.apply_plan_terraform.specs.Outputs as outputs_spec;
ghost use Rattle.apply_plan_terraform.specs.Outputs.{outputs_view};
ghost use Rattle.apply_text_terraform.specs.declared.form.Form.TheVariants.{Applystream, Terraform};
ghost use Rattle.apply_run.specs.FromBytes.{IsReadAs, IsUnreadFor, WasReadFor};
ghost use Rattle.apply_run.specs.Read.{is_unfinished};
ghost use Rattle.apply_run.specs.ReadStated.{stated_view};
ghost use Rattle.apply_writer.specs.Stream.Terraform.{contains_error};

use crate::form_report::FormReport;
use crate::refusal::Refusal;
use crate::stated_inputs::{ReadBytes, ReadStated, read_bytes, read_stated};
use apply_model::{ChangeDetails, Note, Output, Text};
use apply_plan::{Plan, PlanError, Script};
use apply_plan_terraform::{
    Details, Extras, PlanDetails, PlanNote, PlanOutputs, written_notes, written_outputs,
};
use apply_text_terraform::Form;
use apply_writer::{Report, TerraformExtras};
use std::alloc::{AllocError, Global};

/// The inputs of a run, as they are applied and printed.
#[derive(Debug, Drop)]
pub(crate) struct ReadInputs {
    /// The plan that is applied. In Terraform's form it has no changes if Terraform stopped
    /// planning with an error.
    pub plan: Plan,
    /// The script that is applied.
    pub script: Script,
    /// In Terraform's form the details of each change, by the change's number.
    pub changes: Vec<ChangeDetails>,
    /// In Terraform's form the diagnostics that belong to no step, in their order.
    pub notes: Vec<Note>,
    /// In Terraform's form the outputs, in their order.
    pub outputs: Vec<Output>,
    /// Whether the script states dependencies, even if an empty script is applied instead.
    pub has_waits: bool,
}

impl ReadInputs {
    /// Borrows the extras for the lines of a stream.
    pub fn stream_extras(&self) -> TerraformExtras<'_>
        ensures details { result.details.now ≡ self.now.changes.items }
        ensures notes { result.notes.now ≡ self.now.notes.items }
        ensures outputs { result.outputs.now ≡ self.now.outputs.items }
    {
        TerraformExtras {
            details: &self.changes,
            notes: &self.notes,
            outputs: &self.outputs,
        }
    }

    /// The report of a run of these inputs, as their stream prints them.
    pub fn report(&self, run: Report) -> FormReport
        ensures run { result.run ≡ run }
        ensures error { result.contains_error ≡ contains_error self.now.notes.items run.counts }
    {
        let contains_error = self.stream_extras().contains_error(&run.counts);
        FormReport {
            run,
            contains_error,
        }
    }
}

/// Reads a plan (JSON Output Format, "Plan Representation") and an optional script for it; for
/// Terraform's form also the extras of both.
///
/// `Err` with `Refusal::Plan` if the bytes are not a plan. Else `Err` with `Refusal::Script` if
/// there is a script and it does not fit the plan; in Terraform's form also if it names outputs that
/// the plan does not have, or if its diagnostics are malformed. If memory is refused, the refusal
/// names the input that was being read.
pub(crate) fn read_inputs(
    alloc: Global,
    plan: &[u8],
    script: Option<&[u8]>,
    form: Form,
) -> Result<ReadInputs, Refusal>
    ensures ok { (hooks : List (List Rule)) → IfOk result (WasReadFor form
        (record { plan = plan.now; script = option_copied script.entry; hooks = hooks })) }
    ensures err { (hooks : List (List Rule)) → IfErr result (IsUnreadFor form
        (record { plan = plan.now; script = option_copied script.entry; hooks = hooks })) }
{
    match form {
        Form::Applystream => {
            let read = read_bytes(alloc, plan, script)?;
            Ok(without_extras(alloc, read))
        }
        Form::Terraform => {
            let stated = read_stated(alloc, plan, script)?;
            match assemble(alloc, stated) {
                Ok(read) => Ok(read),
                Err(_) => Err(Refusal::Plan(PlanError::Memory)),
            }
        }
    }
}

/// What is applied and printed in the default form.
fn without_extras(alloc: Global, read: ReadBytes) -> ReadInputs
    ensures { IsReadAs Applystream (record { plan = read.plan; script = read.script }) result }
{
    let has_waits = read.script.has_waits();
    let ReadBytes { plan, script } = read;
    ReadInputs {
        plan,
        script,
        changes: Vec::new(alloc),
        notes: Vec::new(alloc),
        outputs: Vec::new(alloc),
        has_waits,
    }
}

/// Puts together the inputs that are applied. `Err` if memory is refused.
fn assemble(alloc: Global, stated: ReadStated) -> Result<ReadInputs, AllocError>
    ensures { IfOk result (IsReadAs Terraform (stated_view stated)) }
{
    let ReadStated {
        read,
        details,
        extras,
    } = stated;
    let has_waits = read.script.has_waits();
    let Details {
        plan: plan_details,
        outputs,
    } = details;
    let PlanDetails { changes, note } = plan_details;
    let ReadBytes { plan, script } = as_applied(alloc, read, note)?;
    let (notes, outputs) = assemble_extras(alloc, note, outputs, extras)?;
    Ok(ReadInputs {
        plan,
        script,
        changes,
        notes,
        outputs,
        has_waits,
    })
}

/// Returns the plan and the script that are applied. `Err` if memory is refused.
fn as_applied(
    alloc: Global,
    read: ReadBytes,
    note: Option<PlanNote>,
) -> Result<ReadBytes, AllocError>
    ensures plan { IfOk result (λ applied. applied.plan ≡
        (if is_unfinished note then record { version = read.plan.version; changes = [] } else read.plan)) }
    ensures script { IfOk result (λ applied. applied.script ≡ (if is_unfinished note then [] else read.script)) }
{
    if note != Some(PlanNote::Unfinished) {
        return Ok(read);
    }
    let version = Text::new(alloc, read.plan.version())?;
    Ok(ReadBytes {
        plan: Plan::new(version, Vec::new(alloc)),
        script: Script::empty(),
    })
}

/// Returns the diagnostics of no step and the outputs. `Err` if memory is refused.
fn assemble_extras(
    alloc: Global,
    note: Option<PlanNote>,
    outputs: PlanOutputs,
    mut extras: Extras,
) -> Result<(Vec<Note>, Vec<Output>), AllocError>
    ensures notes { IfOk result (λ both. both.0.items ≡ notes_spec.written_notes note (extras_view extras).notes) }
    ensures outputs { IfOk result (λ both. both.1.items ≡ outputs_spec.written_outputs (outputs_view outputs) (extras_view extras).outputs) }
{
    let notes = written_notes(alloc, note, extras.take_notes(alloc))?;
    let outputs = written_outputs(alloc, outputs, extras)?;
    Ok((notes, outputs))
}
