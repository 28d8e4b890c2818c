//! The outputs and the diagnostics that a stream shows. Every `Err` means that memory was refused.

ghost use Rattle.std.specs.Prelude.{◌≡◌, ◌++◌, IfOk, IsTrue, OnOk, option_map};
ghost use Rattle.serde_json.specs.View.{view};
ghost use Rattle.apply_plan_terraform.specs.InOrder.{IsAscending, outputs_written, output_if_written};
ghost use Rattle.apply_plan_terraform.specs.StoredOutputs as stored;
ghost use Rattle.apply_plan_terraform.specs.StoredOutputs.{members_view};
ghost use Rattle.apply_plan_terraform.specs.Notes as note_specs;
ghost use Rattle.apply_plan_terraform.specs.Outputs as specs;
ghost use Rattle.apply_plan_terraform.specs.Outputs.{outputs_view};

use crate::extras::Extras;
use crate::output_changes::is_written;
use crate::plan_notes::PlanNote;
use crate::plan_outputs::PlanOutputs;
use crate::raw_output::output_of;
use crate::stored::by_name::by_name;
use crate::stored::stored_output::StoredOutput;
use apply_model::{Note, Output};
use serde_json::{Map, Value};
use std::alloc::{AllocError, Global};

/// The outputs that a stream shows, in the byte order of names. They are the script's outputs, and
/// those of the plan that the script does not name. An output of the plan counts if its value is
/// known before the apply, and the plan does not delete it.
pub fn written_outputs(
    alloc: Global,
    plan: PlanOutputs,
    script: Extras,
) -> Result<Vec<Output>, AllocError>
    ensures { IfOk result (λ outputs. outputs.items
        ≡ specs.written_outputs (outputs_view plan) (members_view script.outputs.entries)) }
{
    let PlanOutputs { known, changes } = plan;
    // Terraform writes outputs in this order, and there may be very many. So this case needs no
    // map.
    if script.outputs.is_empty() && is_ascending(known.as_slice()) {
        return in_order(alloc, known, changes.as_ref());
    }
    let known = by_name(alloc, known)?;
    let collected = with_plan_outputs(known, changes.as_ref(), script.outputs)?;
    as_outputs(alloc, collected)
}

/// The diagnostics of no step that a stream shows, in their order. They are the script's, then the
/// note about the plan. When planning ended with an error, that note is the only one.
pub fn written_notes(
    alloc: Global,
    plan: Option<PlanNote>,
    script: Vec<Note>,
) -> Result<Vec<Note>, AllocError>
    ensures { IfOk result (λ notes. notes.items ≡ note_specs.written_notes plan script.items) }
{
    match plan {
        None => Ok(script),
        Some(PlanNote::Partial) => {
            let mut notes = script;
            notes.push(PlanNote::Partial.note(alloc)?)?;
            Ok(notes)
        }
        Some(PlanNote::Unfinished) => {
            let mut notes = Vec::new(alloc);
            notes.push(PlanNote::Unfinished.note(alloc)?)?;
            Ok(notes)
        }
    }
}

/// Whether the names strictly ascend, as in a plan that Terraform wrote.
fn is_ascending(outputs: &[(String, StoredOutput)]) -> bool
    ensures { IsTrue result → IsAscending outputs.now }
{
    let mut rest = outputs;
    while let [output, others @ ..] = rest {
        if let Some(next) = others.first() {
            if output.0.as_str() >= next.0.as_str() {
                return false;
            }
        }
        rest = others;
    }
    true
}

/// The outputs of the plan that a stream shows, in their order.
fn in_order(
    alloc: Global,
    known: Vec<(String, StoredOutput)>,
    changes: Option<&Value>,
) -> Result<Vec<Output>, AllocError>
    ensures { IfOk result (λ outputs. outputs.items
        ≡ outputs_written (option_map (λ value. view value.now) changes.entry) known.items) }
{
    let mut outputs = Vec::with_capacity(alloc, known.len())?;
    for (name, output) in known {
        push_if_written(alloc, &mut outputs, changes, name.as_str(), &output)?;
    }
    Ok(outputs)
}

/// Appends the output if a stream shows it.
fn push_if_written(
    alloc: Global,
    outputs: &mut Vec<Output>,
    changes: Option<&Value>,
    name: &str,
    output: &StoredOutput,
) -> Result<(), AllocError>
    ensures { OnOk result (outputs.new.items ≡ outputs.old.items
        ++ output_if_written (option_map (λ value. view value.now) changes.entry) name.now (stored.view output.now)) }
{
    if is_written(changes, name, output.kind()) {
        outputs.push(output_of(alloc, name, output)?)?;
    }
    Ok(())
}

/// Adds to the script's outputs those of the plan that a stream shows. A name of the script is not
/// replaced.
fn with_plan_outputs(
    known: Map<String, StoredOutput>,
    changes: Option<&Value>,
    collected: Map<String, StoredOutput>,
) -> Result<Map<String, StoredOutput>, AllocError>
    ensures { IfOk result (λ all. members_view all.entries
        ≡ specs.with_plan_outputs (option_map (λ value. view value.now) changes.entry)
        (members_view known.entries) (members_view collected.entries)) }
{
    let mut known = known;
    let mut collected = collected;
    while let Some((name, output)) = known.pop_first() {
        if is_written(changes, name.as_str(), output.kind())
            && !collected.contains_key(name.as_str())
        {
            drop(collected.insert(name, output)?);
        }
    }
    Ok(collected)
}

/// Builds the outputs, in the order of the map.
fn as_outputs(
    alloc: Global,
    collected: Map<String, StoredOutput>,
) -> Result<Vec<Output>, AllocError>
    ensures { IfOk result (λ outputs. outputs.items ≡ specs.as_outputs (members_view collected.entries)) }
{
    let mut collected = collected;
    let mut outputs = Vec::with_capacity(alloc, collected.len())?;
    while let Some((name, output)) = collected.pop_first() {
        outputs.push(output_of(alloc, name.as_str(), &output)?)?;
    }
    Ok(outputs)
}
