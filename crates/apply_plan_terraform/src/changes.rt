//! Reads from a plan what only Terraform's form needs, except its outputs.

ghost use Rattle.std.specs.Prelude.{◌≡◌, ◌≤◌, length, codes, map, IfErr, IfOk, Some, option_map};
ghost use Rattle.serde_json.specs.Data.{Data};
ghost use Rattle.serde_json.specs.View.{view, items_view};
ghost use Rattle.apply_json.specs.Parsed.{IsNoTree};
ghost use Rattle.apply_json.specs.Tree.{list_of, tree_of};
ghost use Rattle.apply_plan.specs.Bytes.{max_bytes};
ghost use Rattle.apply_plan_terraform.specs.Changes.{array_in, changes_of};
ghost use Rattle.apply_plan_terraform.specs.Details.{element_details};
ghost use Rattle.apply_plan_terraform.specs.Plan.{note_of};

use crate::details::PlanDetails;
use crate::details_shape::DetailsShape;
use crate::elements::change_details;
use crate::notes::plan_note;
use apply_json::{JsonFault, Scratch};
use apply_json_tree::members::member;
use apply_json_tree::parse_trimmed;
use apply_model::ChangeDetails;
use apply_plan::MAX_BYTES;
use serde_json::Value;
use std::alloc::{AllocError, Global};

/// The elements of `resource_changes`. `None` when the plan has no such array.
fn elements(plan: &Value) -> Option<&[Value]>
    ensures { option_map (λ items. items_view items.now) result ≡ array_in (view plan.now) }
{
    Some(member(plan, "resource_changes")?.as_array()?.as_slice())
}

/// Reads the details of each element. `Err` when memory is refused.
fn details_of(alloc: Global, elements: &[Value]) -> Result<Vec<ChangeDetails>, AllocError>
    ensures { IfOk result (λ changes. changes.items
        ≡ map element_details (list_of (items_view elements.now))) }
{
    let mut changes = Vec::with_capacity(alloc, elements.len())?;
    for element in elements {
        changes.push(change_details(alloc, element)?)?;
    }
    Ok(changes)
}

/// Reads the details of all elements of `resource_changes`. `Err` when memory is refused.
fn changes_of(alloc: Global, plan: &Value) -> Result<Vec<ChangeDetails>, AllocError>
    ensures { IfOk result (λ changes. changes.items ≡ changes_of (view plan.now)) }
{
    match elements(plan) {
        Some(elements) => details_of(alloc, elements),
        None => Ok(Vec::new(alloc)),
    }
}

/// Reads the details of a parsed plan. `Err` when memory is refused.
fn plan_details(alloc: Global, plan: &Value) -> Result<PlanDetails, AllocError>
    ensures changes { IfOk result (λ details. details.changes.items ≡ changes_of (view plan.now)) }
    ensures note { IfOk result (λ details. details.note ≡ note_of (view plan.now)) }
{
    Ok(PlanDetails {
        changes: changes_of(alloc, plan)?,
        note: plan_note(plan),
    })
}

/// Reads from a saved plan (JSON Output Format, "Plan Representation") what only Terraform's form
/// needs: the details of each element of `resource_changes`, and the note about the plan.
///
/// Give it bytes that `apply_plan::read_plan` accepted. It refuses no other JSON: a member of the
/// wrong kind counts as absent. It reads all elements, however many there are. `scratch` grows to
/// the length of `bytes`.
///
/// `Err` with `JsonFault::TooLarge` when there are more than 64 MiB. `Err` with
/// `JsonFault::NotJson` when the bytes are no JSON (RFC 8259) in UTF-8, or nest more than 127 deep.
/// `Err` with `JsonFault::Memory` when memory is refused.
pub fn read_plan_details(
    alloc: Global,
    scratch: &mut Scratch,
    bytes: &[u8],
) -> Result<PlanDetails, JsonFault>
    ensures ok { IfOk result (λ details. (length bytes.now ≤ max_bytes) × (whole : Data) × (tree_of bytes.now ≡ Some whole)
        × (details.changes.items ≡ changes_of whole) × (details.note ≡ note_of whole)) }
    ensures err { IfErr result (λ fault. IsNoTree max_bytes fault bytes.now) }
{
    let tree = parse_trimmed(alloc, scratch, bytes, MAX_BYTES, DetailsShape::Plan)?;
    match plan_details(alloc, &tree) {
        Ok(details) => Ok(details),
        Err(_) => Err(JsonFault::Memory),
    }
}
