//! Reads outputs without a tree for each. Three members of an output are stored, each as JSON text.
//!
//! Every `Err` is `ReadFault::NotJson` when the text is no JSON or nests more than `depth` deep,
//! and `ReadFault::Memory` when memory is refused.

ghost use Rattle.std.specs.Prelude.{◌≡◌, ◌<◌, length, Err, IfOk, None, OnOk, Some};
ghost use Rattle.json.specs.Json.{Json, Members, members, value};
ghost use Rattle.serde_json.specs.Data.{no_members};
ghost use Rattle.apply_plan_terraform.specs.StoredOutputs.{outputs_value_view, members_of_output, put_all, view};
ghost use Rattle.apply_plan_terraform.specs.Texts.{members_with_texts, with_texts};
ghost use Rattle.apply_plan_terraform.specs.declared.texts.part.Part.TheVariants as part;

use crate::stored::output_member::OutputMember;
use crate::stored::output_members::OutputMembers;
use crate::stored::sections::OutputsValue;
use crate::stored::stored_output::StoredOutput;
use crate::texts::beginning::{begin, read_as_text};
use apply_json::ReadFault;
use json::Reader;
use std::alloc::Global;

/// Reads the value of a member `outputs`.
pub fn read_outputs(
    alloc: Global,
    reader: &mut Reader<'_>,
    depth: usize,
) -> Result<OutputsValue, ReadFault>
    ensures ok { IfOk result (λ collected. (j : Json) × (value depth reader.old ≡ Some (j, reader.new))
        × (outputs_value_view collected ≡ with_texts part.Outputs j)) }
    ensures shorter { OnOk result (length reader.new < length reader.old) }
    ensures err { result ≡ Err ReadFault.NotJson → value depth reader.old ≡ None }
{
    match begin(alloc, reader, depth)? {
        None => Ok(OutputsValue::Object(read_each(alloc, reader, depth - 1)?)),
        Some(text) => Ok(OutputsValue::Other(text)),
    }
}

/// Reads the rest of an object of outputs, after its opening bracket. Names may repeat.
fn read_each(
    alloc: Global,
    reader: &mut Reader<'_>,
    depth: usize,
) -> Result<Vec<(String, StoredOutput)>, ReadFault>
    ensures ok { IfOk result (λ collected. (ms : Members)
        × (members (value depth) (length reader.old) reader.old ≡ Some (ms, reader.new))
        × (put_all collected.items no_members ≡ members_with_texts part.Outputs ms no_members)) }
    ensures shorter { OnOk result (length reader.new < length reader.old) }
    ensures err { result ≡ Err ReadFault.NotJson
        → members (value depth) (length reader.old) reader.old ≡ None }
{
    let mut collected = Vec::new(alloc);
    'members: while let Some(name) = reader.next_key()? {
        let key = String::from_str(alloc, name)?;
        let output = read_output(alloc, reader, depth)?;
        collected.push((key, output))?;
    }
    Ok(collected)
}

/// Reads an output.
fn read_output(
    alloc: Global,
    reader: &mut Reader<'_>,
    depth: usize,
) -> Result<StoredOutput, ReadFault>
    ensures ok { IfOk result (λ output. (j : Json) × (value depth reader.old ≡ Some (j, reader.new))
        × (view output ≡ with_texts part.Output j)) }
    ensures shorter { OnOk result (length reader.new < length reader.old) }
    ensures err { result ≡ Err ReadFault.NotJson → value depth reader.old ≡ None }
{
    match begin(alloc, reader, depth)? {
        None => {
            let members = read_members(alloc, reader, depth - 1)?;
            Ok(StoredOutput::of(alloc, members)?)
        }
        Some(text) => Ok(StoredOutput::Other(text)),
    }
}

/// Reads the rest of an output that is an object.
fn read_members(
    alloc: Global,
    reader: &mut Reader<'_>,
    depth: usize,
) -> Result<OutputMembers, ReadFault>
    ensures ok { IfOk result (λ collected. (ms : Members)
        × (members (value depth) (length reader.old) reader.old ≡ Some (ms, reader.new))
        × (members_of_output collected ≡ members_with_texts part.Output ms no_members)) }
    ensures shorter { OnOk result (length reader.new < length reader.old) }
    ensures err { result ≡ Err ReadFault.NotJson
        → members (value depth) (length reader.old) reader.old ≡ None }
{
    let mut collected = OutputMembers::none();
    'members: while let Some(name) = reader.next_key()? {
        match OutputMember::named(name) {
            Some(member) => {
                let text = read_as_text(alloc, reader, depth)?;
                collected.put(member, text);
            }
            None => reader.skip_value(depth)?,
        }
    }
    Ok(collected)
}
