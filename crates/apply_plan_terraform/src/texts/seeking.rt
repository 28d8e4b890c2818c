//! Reads the two sections of a plan or a script from bytes.
//!
//! Every `Err` is `ReadFault::NotJson` or `ReadFault::Memory`. It is `NotJson` when the bytes are
//! no JSON (RFC 8259) in UTF-8, or nest more than 127 deep. It is `Memory` when memory is refused.

ghost use Rattle.std.specs.Prelude.{◌≡◌, ◌≢◌, ◌<◌, length, Err, IfOk, None, OnOk, Some};
ghost use Rattle.json.specs.Json.{Json, Members, members, value};
ghost use Rattle.serde_json.specs.Data.{no_members, object};
ghost use Rattle.apply_plan_terraform.specs.Sections.{AreSectionsOf};
ghost use Rattle.apply_plan_terraform.specs.Texts.{json_of, json_of_text, members_with_texts, with_texts};

use crate::stored::sections::Sections;
use crate::texts::beginning::begin;
use crate::texts::outputs::read_outputs;
use crate::texts::part::Part;
use crate::texts::reading::read;
use apply_json::{ReadFault, Scratch};
use json::Reader;
use simdutf8::basic::from_utf8;
use std::alloc::Global;

/// How deep arrays and objects may nest.
pub(crate) const MAX_DEPTH: usize = 127;

/// Reads both sections from the bytes of a plan or a script.
pub fn read_sections(
    alloc: Global,
    scratch: &mut Scratch,
    bytes: &[u8],
    part: Part,
) -> Result<Sections, ReadFault>
    ensures ok { IfOk result
        (λ sections. (j : Json) × (json_of bytes.now ≡ Some j) × AreSectionsOf part (with_texts part j) sections) }
    ensures err { result ≡ Err ReadFault.NotJson → json_of bytes.now ≡ None }
{
    match from_utf8(bytes) {
        Ok(text) => read_text(alloc, scratch, text, part),
        Err(_) => Err(ReadFault::NotJson),
    }
}

/// Reads both sections from a text.
fn read_text(
    alloc: Global,
    scratch: &mut Scratch,
    text: &str,
    part: Part,
) -> Result<Sections, ReadFault>
    ensures ok { IfOk result
        (λ sections. (j : Json) × (json_of_text text.now ≡ Some j) × AreSectionsOf part (with_texts part j) sections) }
    ensures err { result ≡ Err ReadFault.NotJson → json_of_text text.now ≡ None }
{
    let mut reader = Reader::new(text, scratch)?;
    let sections = seek(alloc, &mut reader, MAX_DEPTH, part)?;
    if reader.next().is_some() {
        return Err(ReadFault::NotJson);
    }
    Ok(sections)
}

/// Reads both sections of one value, which is the given part of a plan or a script.
#[cycle(seek)]
fn seek(
    alloc: Global,
    reader: &mut Reader<'_>,
    depth: usize,
    part: Part,
) -> Result<Sections, ReadFault>
    ensures ok { IfOk result (λ sections. (j : Json) × (value depth reader.old ≡ Some (j, reader.new))
        × AreSectionsOf part (with_texts part j) sections) }
    ensures shorter { OnOk result (length reader.new < length reader.old) }
    ensures err { result ≡ Err ReadFault.NotJson → value depth reader.old ≡ None }
{
    if part == Part::Outputs {
        return Ok(Sections {
            outputs: Some(read_outputs(alloc, reader, depth)?),
            companion: None,
        });
    }
    match begin(alloc, reader, depth)? {
        None => seek_in_members(alloc, reader, depth - 1, part),
        Some(_) => Ok(Sections::nothing()),
    }
}

/// Reads both sections from the rest of an object, after its opening bracket.
#[cycle(seek)]
fn seek_in_members(
    alloc: Global,
    reader: &mut Reader<'_>,
    depth: usize,
    part: Part,
) -> Result<Sections, ReadFault>
    requires { part ≢ Part.Outputs }
    ensures ok { IfOk result (λ sections. (ms : Members)
        × (members (value depth) (length reader.old) reader.old ≡ Some (ms, reader.new))
        × AreSectionsOf part (object (members_with_texts part ms no_members)) sections) }
    ensures shorter { OnOk result (length reader.new < length reader.old) }
    ensures err { result ≡ Err ReadFault.NotJson
        → members (value depth) (length reader.old) reader.old ≡ None }
{
    let mut collected = Sections::nothing();
    'members: while let Some(name) = reader.next_key()? {
        match part.named(name) {
            Some(inner) => if inner.is_companion() {
                let companion = read(alloc, reader, depth, inner)?;
                collected.set_companion(companion);
            } else {
                let below = seek(alloc, reader, depth, inner)?;
                collected.set_outputs(below);
            },
            None => reader.skip_value(depth)?,
        }
    }
    Ok(collected)
}
