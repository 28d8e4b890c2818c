//! Checks the members at the top of a script that only Terraform's form reads, from its bytes.
//!
//! Every `Err` means that memory was refused.

ghost use Rattle.std.specs.Prelude.{◌≡◌, IfOk, option_map};
ghost use Rattle.std.specs.Option.{option_copied};
ghost use Rattle.apply_plan_terraform.specs.Outputs.{outputs_view};
ghost use Rattle.input_validate.specs.Extras.{extras_findings, outputs_unless};
ghost use Rattle.input_validate.specs.Findings.{reported};
ghost use Rattle.input_validate.specs.InForm.{extras_for, extras_of, planned_extras, terraform_extras};

use crate::extras::top_level::walk_extras;
use crate::findings::list::{Findings, joined};
use crate::form::Form;
use crate::planning::bytes::planning_for;
use apply_json::JsonFault;
use apply_json_tree::parse;
use apply_plan::MAX_BYTES;
use apply_plan_terraform::{PlanOutputs, read_details};
use std::alloc::{AllocError, Global};

/// Lists the errors in the members that only a run in this form reads. For this program's own form,
/// and without a script, there are none. `is_refused` says that a run refuses the plan: then outputs
/// and objects are not compared with the plan's.
pub fn extras_for(
    alloc: Global,
    form: Form,
    is_refused: bool,
    plan: &[u8],
    script: Option<&[u8]>,
) -> Result<Findings, AllocError>
    ensures { IfOk result (λ f. f ≡ reported (extras_for form is_refused plan.now (option_copied script.entry))) }
{
    match script {
        Some(bytes) => extras_of(alloc, form, is_refused, plan, bytes),
        None => Ok(Findings::none(alloc)),
    }
}

/// Lists the same errors for the bytes of a script.
fn extras_of(
    alloc: Global,
    form: Form,
    is_refused: bool,
    plan: &[u8],
    bytes: &[u8],
) -> Result<Findings, AllocError>
    ensures { IfOk result (λ f. f ≡ reported (extras_of form is_refused plan.now bytes.now)) }
{
    match form {
        Form::Applystream => Ok(Findings::none(alloc)),
        Form::Terraform => terraform_extras(alloc, is_refused, plan, bytes),
        Form::TerraformPlan | Form::TerraformApply => {
            planned_extras(alloc, is_refused, plan, bytes)
        }
    }
}

/// Lists the errors in `outputs`, `diagnostics` and `planning`.
fn planned_extras(
    alloc: Global,
    is_refused: bool,
    plan: &[u8],
    bytes: &[u8],
) -> Result<Findings, AllocError>
    ensures { IfOk result (λ f. f ≡ reported (planned_extras is_refused plan.now bytes.now)) }
{
    let extras = terraform_extras(alloc, is_refused, plan, bytes);
    joined(extras, planning_for(alloc, is_refused, plan, bytes))
}

/// Lists the errors in `outputs` and `diagnostics`.
fn terraform_extras(
    alloc: Global,
    is_refused: bool,
    plan: &[u8],
    bytes: &[u8],
) -> Result<Findings, AllocError>
    ensures { IfOk result (λ f. f ≡ reported (terraform_extras is_refused plan.now bytes.now)) }
{
    let outputs = outputs_unless(alloc, is_refused, plan)?;
    walk_bytes(alloc, &outputs, bytes)
}

/// Reads the outputs of a plan that a run accepts. The plan was read before, so the only possible
/// error is a lack of memory.
fn outputs_unless(
    alloc: Global,
    is_refused: bool,
    plan: &[u8],
) -> Result<Option<PlanOutputs>, AllocError>
    ensures { IfOk result (λ outputs. option_map outputs_view outputs ≡ outputs_unless is_refused plan.now) }
{
    if is_refused {
        return Ok(None);
    }
    match read_details(alloc, plan) {
        Ok(details) => Ok(Some(details.outputs)),
        Err(_) => Err(AllocError),
    }
}

/// Checks the bytes of a script. Bytes that are too many or not JSON are reported elsewhere.
fn walk_bytes(
    alloc: Global,
    outputs: &Option<PlanOutputs>,
    bytes: &[u8],
) -> Result<Findings, AllocError>
    ensures { IfOk result (λ f. f ≡ reported (extras_findings (option_map outputs_view outputs.now) bytes.now)) }
{
    match parse(alloc, bytes, MAX_BYTES) {
        Ok(script) => walk_extras(alloc, outputs.as_ref(), &script),
        Err(JsonFault::Memory) => Err(AllocError),
        Err(JsonFault::TooLarge) => Ok(Findings::none(alloc)),
        Err(JsonFault::NotJson) => Ok(Findings::none(alloc)),
    }
}
