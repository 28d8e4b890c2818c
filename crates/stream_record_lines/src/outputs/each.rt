//! Reads the outputs of an object `outputs`, in the order of the text.
//!
//! Every `Err` with a `ReadFault` is `ReadFault::NotJson` where the text is no JSON or nests too
//! deep, and `ReadFault::Memory` where memory is refused.

ghost use Rattle.std.specs.Prelude.{◌≡◌, ◌<◌, ℕ, [], List, length, unwrap_or, Err, IfOk, None, OnOk, Some};
ghost use Rattle.std.specs.List.{filter_map};
ghost use Rattle.json.specs.Json.{members, value};
ghost use Rattle.serde_json.specs.Data.{Data};
ghost use Rattle.serde_json.specs.Read.{converted};
ghost use Rattle.apply_json.specs.Tokens.{IsNoValue};
ghost use Rattle.apply_json.specs.Verbatim.{IsMixedRead};
ghost use Rattle.stream_record_lines.specs.Outputs.{is_json, output_named, output_of, outputs_in, outputs_of_text};
ghost use Rattle.stream_record_lines.specs.OutputSlots.{entries_view, statement_view};

use crate::outputs::output::Output;
use crate::outputs::output_slots::OutputSlots;
use crate::outputs::repeatable::repeatable;
use crate::outputs::statement::Statement;
use apply_json::{MAX_DEPTH, ReadFault, Reader, Scratch, end, read_object};
use indexmap::IndexMap;
use json::Token;
use std::alloc::{AllocError, Global};

/// Reads the outputs of the JSON text of an object that have a type and no action. There are none
/// in any other text. `scratch`
/// grows to the length of the text. `Err` where memory is refused.
pub fn read_each(
    alloc: Global,
    scratch: &mut Scratch,
    text: &str,
) -> Result<Vec<Output>, AllocError>
    ensures { IfOk result (λ outputs. outputs.items ≡ filter_map output_of (unwrap_or (outputs_of_text text.now) [])) }
{
    match read_text(alloc, scratch, text) {
        Ok(found) => repeatable(alloc, found),
        Err(ReadFault::NotJson) => Ok(Vec::new(alloc)),
        Err(ReadFault::Memory) => Err(AllocError),
    }
}

/// Reads the outputs of a text. `Err` with `ReadFault::NotJson` also where it is no object.
fn read_text(
    alloc: Global,
    scratch: &mut Scratch,
    text: &str,
) -> Result<IndexMap<String, Statement>, ReadFault>
    ensures ok { IfOk result (λ found. outputs_of_text text.now ≡ Some (entries_view found.entries)) }
    ensures err { result ≡ Err ReadFault.NotJson → outputs_of_text text.now ≡ None }
{
    let mut reader = Reader::new(text, scratch)?;
    let token = reader.next().ok_or(ReadFault::NotJson)?;
    match token {
        Token::BeginObject => {
            let found = read_members(alloc, &mut reader, MAX_DEPTH - 1)?;
            end(&mut reader)?;
            Ok(found)
        }
        _ => Err(ReadFault::NotJson),
    }
}

/// Reads the outputs of an object after its `{`.
fn read_members(
    alloc: Global,
    reader: &mut Reader<'_>,
    depth: usize,
) -> Result<IndexMap<String, Statement>, ReadFault>
    ensures ok { IfOk result (λ found. converted (λ ms. outputs_in ms []) (members (value depth) (length reader.old) reader.old)
        ≡ Some (entries_view found.entries, reader.new)) }
    ensures err { result ≡ Err ReadFault.NotJson
        → converted (λ ms. outputs_in ms []) (members (value depth) (length reader.old) reader.old) ≡ None }
{
    let mut found = IndexMap::new(alloc);
    'members: while let Some(name) = reader.next_key()? {
        let key = String::from_str(alloc, name)?;
        let statement = read_statement(alloc, reader, depth)?;
        drop(found.insert(key, statement)?);
    }
    Ok(found)
}

/// Reads one output. Arrays and objects may nest `depth` deep.
fn read_statement(
    alloc: Global,
    reader: &mut Reader<'_>,
    depth: usize,
) -> Result<Statement, ReadFault>
    ensures ok { IfOk result (λ statement. (d : Data) × IsMixedRead is_json depth reader.old d reader.new
        × ((name : List ℕ) → statement_view name statement ≡ output_named name d)) }
    ensures shorter { OnOk result (length reader.new < length reader.old) }
    ensures err { result ≡ Err ReadFault.NotJson → IsNoValue depth reader.old }
{
    let mut slots = OutputSlots::new();
    read_object(alloc, reader, depth, &mut slots)?;
    Ok(slots.statement())
}
