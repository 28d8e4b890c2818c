//! Reads objects as trees whose leaves are JSON texts.
//!
//! Every `Err` is `ReadFault::NotJson` when the text is no JSON or nests more than `depth` deep,
//! and `ReadFault::Memory` when memory is refused.

ghost use Rattle.std.specs.Prelude.{◌≡◌, ◌<◌, length, Err, IfOk, None, OnOk, Some};
ghost use Rattle.json.specs.Json.{Json, Members, members, value};
ghost use Rattle.serde_json.specs.Data.{no_members};
ghost use Rattle.serde_json.specs.View.{view, members_view};
ghost use Rattle.apply_plan_terraform.specs.Texts.{members_with_texts, with_texts};

use crate::texts::beginning::{begin, read_as_text};
use crate::texts::part::Part;
use apply_json::ReadFault;
use json::Reader;
use serde_json::{Map, Value};
use std::alloc::Global;

/// Reads one value. Objects become trees, down to the values that are stored as JSON text.
#[cycle(read)]
pub fn read(
    alloc: Global,
    reader: &mut Reader<'_>,
    depth: usize,
    part: Part,
) -> Result<Value, ReadFault>
    ensures ok { IfOk result (λ v. (j : Json) × (value depth reader.old ≡ Some (j, reader.new))
        × (view v ≡ with_texts part j)) }
    ensures shorter { OnOk result (length reader.new < length reader.old) }
    ensures err { result ≡ Err ReadFault.NotJson → value depth reader.old ≡ None }
{
    if part.is_text() {
        return Ok(Value::String(read_as_text(alloc, reader, depth)?));
    }
    match begin(alloc, reader, depth)? {
        None => Ok(Value::Object(read_members(alloc, reader, depth - 1, part)?)),
        Some(text) => Ok(Value::String(text)),
    }
}

/// Reads the rest of an object, after its opening bracket.
#[cycle(read)]
fn read_members(
    alloc: Global,
    reader: &mut Reader<'_>,
    depth: usize,
    part: Part,
) -> Result<Map<String, Value>, ReadFault>
    ensures ok { IfOk result (λ m. (ms : Members)
        × (members (value depth) (length reader.old) reader.old ≡ Some (ms, reader.new))
        × (members_view m.entries ≡ members_with_texts part ms no_members)) }
    ensures shorter { OnOk result (length reader.new < length reader.old) }
    ensures err { result ≡ Err ReadFault.NotJson
        → members (value depth) (length reader.old) reader.old ≡ None }
{
    let mut collected = Map::new(alloc);
    'members: while let Some(name) = reader.next_key()? {
        match part.named(name) {
            Some(inner) => {
                let key = String::from_str(alloc, name)?;
                let member = read(alloc, reader, depth, inner)?;
                drop(collected.insert(key, member)?);
            }
            None => reader.skip_value(depth)?,
        }
    }
    Ok(collected)
}
