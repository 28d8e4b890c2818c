//! Lists the doubts about a script, from its bytes.
//!
//! Every `Err` means that memory was refused.

ghost use Rattle.std.specs.Prelude.{◌≡◌, [], IfOk, if◌then◌else◌, option_map, take};
ghost use Rattle.std.specs.Option.{option_copied};
ghost use Rattle.serde_json.specs.View.{view};
ghost use Rattle.apply_plan.specs.Plan.SavedPlan.{plan_of};
ghost use Rattle.input_validate.specs.Doubts.{doubts, doubts_for, doubts_of, needless_skips, output_doubts, script_doubts, tree_within, unheeded_failures, valueless_in};
ghost use Rattle.input_validate.specs.Findings.{reported};
ghost use Rattle.input_validate.specs.InForm.{doubts_unless};

use crate::against_plan::planned::Planned;
use crate::doubts::outputs::valueless_output;
use crate::doubts::skips::needless_skips;
use crate::doubts::unheeded::unheeded_failures;
use crate::findings::list::{Findings, joined};
use crate::form::Form;
use apply_json::JsonFault;
use apply_json_tree::parse;
use apply_plan::{MAX_BYTES, Plan, PlanError, read_plan};
use serde_json::Value;
use std::alloc::{AllocError, Global};

/// Lists the doubts about a script for a plan, each kind once. There are none if a run refuses the
/// plan or the script (`is_refused`), or if no script is given.
pub fn doubts_unless(
    alloc: Global,
    is_refused: bool,
    form: Form,
    lanes: bool,
    plan: &[u8],
    script: Option<&[u8]>,
) -> Result<Findings, AllocError>
    ensures { IfOk result (λ f. f ≡ reported (doubts_unless is_refused form lanes plan.now (option_copied script.entry))) }
{
    if is_refused {
        return Ok(Findings::none(alloc));
    }
    doubts(alloc, form, lanes, plan, script)
}

/// Lists the doubts about a script that a run accepts, if one is given.
fn doubts(
    alloc: Global,
    form: Form,
    lanes: bool,
    plan: &[u8],
    script: Option<&[u8]>,
) -> Result<Findings, AllocError>
    ensures { IfOk result (λ f. f ≡ reported (doubts form lanes plan.now (option_copied script.entry))) }
{
    let Some(bytes) = script else {
        return Ok(Findings::none(alloc));
    };
    match tree_within(alloc, bytes)? {
        Some(script) => doubts_of(alloc, form, lanes, plan, &script),
        None => Ok(Findings::none(alloc)),
    }
}

/// Lists the doubts about the tree of a script.
fn doubts_of(
    alloc: Global,
    form: Form,
    lanes: bool,
    plan: &[u8],
    script: &Value,
) -> Result<Findings, AllocError>
    ensures { IfOk result (λ f. f ≡ reported (doubts_of form lanes plan.now (view script.now))) }
{
    let all = doubts_for(alloc, lanes, plan, script);
    joined(all, output_doubts(alloc, form, plan, script))
}

/// Lists the doubts about a script for a plan that a run may refuse.
fn doubts_for(
    alloc: Global,
    lanes: bool,
    plan: &[u8],
    script: &Value,
) -> Result<Findings, AllocError>
    ensures { IfOk result (λ f. f ≡ reported (doubts_for lanes (plan_of plan.now) (view script.now))) }
{
    match read_plan(alloc, plan) {
        Ok(plan) => doubts_against(alloc, lanes, &plan, script),
        Err(PlanError::Memory) => Err(AllocError),
        Err(_) => Ok(Findings::none(alloc)),
    }
}

/// Lists the doubts about a script for the changes of a plan that a run accepts.
fn doubts_against(
    alloc: Global,
    lanes: bool,
    plan: &Plan,
    script: &Value,
) -> Result<Findings, AllocError>
    ensures { IfOk result (λ f. f ≡ reported (script_doubts lanes plan.now.changes (view script.now))) }
{
    let planned = Planned::of(alloc, plan)?;
    script_doubts(alloc, lanes, &planned, script)
}

/// Lists the doubts about a script for these changes.
fn script_doubts<'a>(
    alloc: Global,
    lanes: bool,
    planned: &Planned<'a>,
    script: &'a Value,
) -> Result<Findings, AllocError>
    ensures { IfOk result (λ f. f ≡ reported (script_doubts lanes planned.now (view script.now))) }
{
    let unheeded = first_unheeded(alloc, lanes, script);
    joined(unheeded, first_needless(alloc, planned, script))
}

/// Reports the first failure that no step waits for. Without lanes no step waits.
fn first_unheeded(alloc: Global, lanes: bool, script: &Value) -> Result<Findings, AllocError>
    ensures { IfOk result (λ f. f ≡ reported (if lanes then take 1 (unheeded_failures (view script.now)) else [])) }
{
    if !lanes {
        return Ok(Findings::none(alloc));
    }
    Ok(unheeded_failures(alloc, script)?.first())
}

/// Reports the first step that is skipped where nothing fails.
fn first_needless<'a>(
    alloc: Global,
    planned: &Planned<'a>,
    script: &'a Value,
) -> Result<Findings, AllocError>
    ensures { IfOk result (λ f. f ≡ reported (take 1 (needless_skips planned.now (view script.now)))) }
{
    Ok(needless_skips(alloc, planned, script)?.first())
}

/// Reports an output without a value. Only an apply in Terraform's form prints values of outputs.
fn output_doubts(
    alloc: Global,
    form: Form,
    plan: &[u8],
    script: &Value,
) -> Result<Findings, AllocError>
    ensures { IfOk result (λ f. f ≡ reported (output_doubts form plan.now (view script.now))) }
{
    match form {
        Form::Applystream | Form::TerraformPlan => Ok(Findings::none(alloc)),
        Form::Terraform | Form::TerraformApply => valueless_in(alloc, plan, script),
    }
}

/// Reports an output without a value, by the bytes of the plan.
fn valueless_in(alloc: Global, plan: &[u8], script: &Value) -> Result<Findings, AllocError>
    ensures { IfOk result (λ f. f ≡ reported (valueless_in plan.now (view script.now))) }
{
    match tree_within(alloc, plan)? {
        Some(plan) => valueless_output(alloc, &plan, script),
        None => Ok(Findings::none(alloc)),
    }
}

/// Parses an input. `None` if it is too large or not JSON.
fn tree_within(alloc: Global, bytes: &[u8]) -> Result<Option<Value>, AllocError>
    ensures { IfOk result (λ tree. option_map view tree ≡ tree_within bytes.now) }
{
    match parse(alloc, bytes, MAX_BYTES) {
        Ok(tree) => Ok(Some(tree)),
        Err(JsonFault::Memory) => Err(AllocError),
        Err(_) => Ok(None),
    }
}
