//! Reads from a script what only Terraform's form needs.

ghost use Rattle.std.specs.Prelude.{◌≡◌, Err, IfOk, None, Some, option_map};
ghost use Rattle.json.specs.Json.{Json};
ghost use Rattle.serde_json.specs.View.{view};
ghost use Rattle.apply_plan.specs.Results.{Gives};
ghost use Rattle.apply_plan_terraform.specs.Extras.{extras_from, extras_of_bytes, extras_view};
ghost use Rattle.apply_plan_terraform.specs.InOrder.{KnowsAs};
ghost use Rattle.apply_plan_terraform.specs.StoredOutputs.{outputs_value_view, members_view};
ghost use Rattle.apply_plan_terraform.specs.Outputs.{fault_of, outputs_in_script, outputs_view, unless_faulty};
ghost use Rattle.apply_plan_terraform.specs.Sections.{AreSectionsOf};
ghost use Rattle.apply_plan_terraform.specs.Texts.{json_of, with_texts};
ghost use Rattle.apply_plan_terraform.specs.declared.texts.part.Part.TheVariants as part;

use crate::extras::Extras;
use crate::plan_outputs::PlanOutputs;
use crate::raw_output::{equals_word, is_output};
use crate::script_notes::notes_in;
use crate::stored::by_name::by_name;
use crate::stored::sections::{OutputsValue, Sections};
use crate::stored::stored_output::StoredOutput;
use crate::texts::part::Part;
use crate::texts::seeking::read_sections;
use apply_json::{ReadFault, Scratch};
use apply_plan::ScriptError;
use serde_json::{Map, Value};
use std::alloc::{AllocError, Global};
use std::collections::BTreeMap;

/// Reads `outputs` and `diagnostics` of a script.
///
/// `outputs` is an object. Each member is an output of the plan: an object with `type`, and
/// optionally `value` and `sensitive`, as `terraform output -json` prints it. `diagnostics` is an
/// array. Each item is an object with `severity` and `summary`, and optionally `detail`, `address`,
/// `range` and `snippet`, as in a stream.
///
/// Give it bytes that `apply_plan::read_script` accepted. The errors are checked in this order:
///
/// `ScriptError::NotJson` when the bytes are no JSON (RFC 8259) in UTF-8, or nest more than 127
/// deep. `ScriptError::BadShape` when `outputs` is no object. `ScriptError::BadOutput` or
/// `ScriptError::UnknownOutput` for the first wrong output, in the byte order of names.
/// `ScriptError::BadShape` when `diagnostics` is no array. `ScriptError::BadDiagnostic` for the
/// first wrong diagnostic.
///
/// `ScriptError::Memory` when memory is refused.
pub fn read_extras(alloc: Global, bytes: &[u8], plan: &PlanOutputs) -> Result<Extras, ScriptError>
    ensures { Gives ScriptError.Memory extras_view result
        (extras_of_bytes (outputs_view plan.now) bytes.now) }
{
    match read_script(alloc, bytes) {
        Ok(Sections { outputs, companion }) => extras_of(alloc, outputs, companion, plan),
        Err(ReadFault::NotJson) => Err(ScriptError::NotJson),
        Err(ReadFault::Memory) => Err(ScriptError::Memory),
    }
}

/// Reads both sections of a script. `Err` when the bytes are no JSON, or memory is refused.
fn read_script(alloc: Global, bytes: &[u8]) -> Result<Sections, ReadFault>
    ensures ok { IfOk result (λ sections. (j : Json) × (json_of bytes.now ≡ Some j)
        × AreSectionsOf part.Script (with_texts part.Script j) sections) }
    ensures err { result ≡ Err ReadFault.NotJson → json_of bytes.now ≡ None }
{
    let mut scratch = Scratch::new(alloc);
    read_sections(alloc, &mut scratch, bytes, Part::Script)
}

/// Builds the extras from both sections. Its errors are those of `read_extras`.
fn extras_of(
    alloc: Global,
    outputs: Option<OutputsValue>,
    diagnostics: Option<Value>,
    plan: &PlanOutputs,
) -> Result<Extras, ScriptError>
    ensures { Gives ScriptError.Memory extras_view result
        (extras_from (outputs_view plan.now) (option_map outputs_value_view outputs) (option_map view diagnostics)) }
{
    match checked_outputs(alloc, outputs, plan) {
        Ok(outputs) => match notes_in(alloc, diagnostics.as_ref()) {
            Ok(notes) => Ok(Extras { outputs, notes }),
            Err(fault) => Err(fault),
        },
        Err(fault) => Err(fault),
    }
}

/// Reads the outputs, and checks them. Its errors are those of `read_extras`.
fn checked_outputs(
    alloc: Global,
    value: Option<OutputsValue>,
    plan: &PlanOutputs,
) -> Result<Map<String, StoredOutput>, ScriptError>
    ensures { Gives ScriptError.Memory (λ outputs. members_view outputs.entries) result
        (unless_faulty (outputs_view plan.now) (outputs_in_script (option_map outputs_value_view value))) }
{
    match outputs_in(alloc, value) {
        Ok(outputs) => match fault(alloc, &outputs, plan) {
            Ok(Some(fault)) => Err(fault),
            Ok(None) => Ok(outputs),
            Err(_) => Err(ScriptError::Memory),
        },
        Err(fault) => Err(fault),
    }
}

/// Reads the outputs by name. `Err` with `ScriptError::BadShape` when the value is no object, and
/// with `ScriptError::Memory` when memory is refused.
fn outputs_in(
    alloc: Global,
    value: Option<OutputsValue>,
) -> Result<Map<String, StoredOutput>, ScriptError>
    ensures { Gives ScriptError.Memory (λ outputs. members_view outputs.entries) result
        (outputs_in_script (option_map outputs_value_view value)) }
{
    match value {
        None => Ok(Map::new(alloc)),
        Some(OutputsValue::Object(outputs)) => match by_name(alloc, outputs) {
            Ok(outputs) => Ok(outputs),
            Err(_) => Err(ScriptError::Memory),
        },
        Some(OutputsValue::Other(text)) => if equals_word(Some(text.as_str()), "null") {
            Ok(Map::new(alloc))
        } else {
            Err(ScriptError::BadShape(None))
        },
    }
}

/// The first error in the outputs. `Err` when memory is refused.
fn fault(
    alloc: Global,
    outputs: &Map<String, StoredOutput>,
    plan: &PlanOutputs,
) -> Result<Option<ScriptError>, AllocError>
    ensures { IfOk result
        (λ fault. fault ≡ fault_of (outputs_view plan.now) 0 (members_view outputs.now.entries)) }
{
    if outputs.is_empty() {
        return Ok(None);
    }
    let names = plan.names(alloc)?;
    Ok(first_fault(outputs, plan, &names))
}

/// The first error in the outputs. `names` gives the outputs that the plan knows.
fn first_fault(
    outputs: &Map<String, StoredOutput>,
    plan: &PlanOutputs,
    names: &BTreeMap<&str, bool>,
) -> Option<ScriptError>
    requires { KnowsAs (outputs_view plan.now) names.now }
    ensures { result ≡ fault_of (outputs_view plan.now) 0 (members_view outputs.now.entries) }
{
    let count = outputs.len();
    let mut left = count;
    for (name, output) in outputs {
        if !is_output(output) {
            return Some(ScriptError::BadOutput(count - left));
        }
        if !plan.has(names, name.as_str()) {
            return Some(ScriptError::UnknownOutput(count - left));
        }
        left -= 1;
    }
    None
}
