//! Reads the diagnostics of a script. Their members stay JSON texts.

ghost use Rattle.std.specs.Prelude.{◌≡◌, ◌<◌, length, map, option_map, Err, IfOk, None, OnOk, Some};
ghost use Rattle.json.specs.Json.{Items, items, value};
ghost use Rattle.serde_json.specs.View.{view};
ghost use Rattle.apply_plan_terraform.specs.Notes.{items_in_text, items_of};

use crate::texts::part::Part;
use crate::texts::reading::read;
use crate::texts::seeking::MAX_DEPTH;
use apply_json::{ReadFault, Scratch};
use json::{Reader, Token};
use serde_json::Value;
use std::alloc::Global;

/// Reads an array of diagnostics. `None` when the text is no array.
///
/// `Err` with `ReadFault::NotJson` when the text is no JSON (RFC 8259), or nests more than 127
/// deep. `Err` with `ReadFault::Memory` when memory is refused.
pub fn read_items(alloc: Global, text: &str) -> Result<Option<Vec<Value>>, ReadFault>
    ensures ok { IfOk result
        (λ collected. option_map (λ items. map view items.items) collected ≡ items_in_text text.now) }
    ensures err { result ≡ Err ReadFault.NotJson → items_in_text text.now ≡ None }
{
    let mut scratch = Scratch::new(alloc);
    let mut reader = Reader::new(text, &mut scratch)?;
    let Some(token) = reader.next() else {
        return Ok(None);
    };
    match token {
        Token::BeginArray => {
            let collected = read_each(alloc, &mut reader, MAX_DEPTH - 1)?;
            if reader.next().is_some() {
                Ok(None)
            } else {
                Ok(Some(collected))
            }
        }
        _ => Ok(None),
    }
}

/// Reads the rest of an array. Its errors are those of `read_items`.
fn read_each(alloc: Global, reader: &mut Reader<'_>, depth: usize) -> Result<Vec<Value>, ReadFault>
    ensures ok { IfOk result (λ collected. (js : Items)
        × (items (value depth) (length reader.old) reader.old ≡ Some (js, reader.new))
        × (map view collected.items ≡ items_of js)) }
    ensures shorter { OnOk result (length reader.new < length reader.old) }
    ensures err { result ≡ Err ReadFault.NotJson
        → items (value depth) (length reader.old) reader.old ≡ None }
{
    let mut collected = Vec::new(alloc);
    'items: while !reader.take_end_array() {
        let item = read(alloc, reader, depth, Part::Diagnostic)?;
        collected.push(item)?;
    }
    Ok(collected)
}
