//! Reads whole inputs: bytes to text, and the top-level object into slots.

ghost use Rattle.std.specs.Prelude.{◌≡◌, ◌≢◌, ◌≤◌, [], length, Err, None, IfOk, IfErr, IsUtf8, OnErr, OnOk, Some};
ghost use Rattle.serde_json.specs.Data.{Data, no_members};
ghost use Rattle.serde_json.specs.Read.{read as read_text};
ghost use Rattle.apply_json.specs.Verbatim.{IsNoMixedTree, mixed_tree_of, mixed_tree_of_text};
ghost use Rattle.apply_json.specs.ShallowView.{members_in};
ghost use Rattle.apply_json.specs.Parsed.{IsNoTree};

use crate::json_fault::JsonFault;
use crate::read_fault::ReadFault;
use crate::slots::{Slots, read_object};
use json::{Reader, Scratch};
use simdutf8::basic::from_utf8;
use std::alloc::Global;

/// The greatest depth to which arrays and objects may nest.
pub const MAX_DEPTH: usize = 127;

/// The bytes as text.
///
/// `Err` is `JsonFault::TooLarge` for more than `most` bytes, and `JsonFault::NotJson` for bytes
/// that are not UTF-8.
pub fn text_of(bytes: &[u8], most: usize) -> Result<&str, JsonFault>
    ensures ok { IfOk result
        (λ text. (text.now ≡ bytes.now) × (length bytes.now ≤ most) × IsUtf8 bytes.now) }
    ensures err { IfErr result (λ fault. IsNoTree most fault bytes.now) }
{
    if bytes.len() > most {
        return Err(JsonFault::TooLarge);
    }
    match from_utf8(bytes) {
        Ok(text) => Ok(text),
        Err(_) => Err(JsonFault::NotJson),
    }
}

/// Reads the members of a top-level object into slots. Any other value counts as an empty object.
///
/// `scratch` grows to the length of the bytes. `Err` is one of these:
/// - `JsonFault::TooLarge`: there are more than `most` bytes.
/// - `JsonFault::NotJson`: the bytes are not UTF-8 or not JSON (RFC 8259), or values nest more than
///   127 deep.
/// - `JsonFault::Memory`: memory was refused.
pub fn read_slots<'a, S: Slots<'a>>(
    alloc: Global,
    scratch: &'a mut Scratch,
    bytes: &'a [u8],
    most: usize,
    slots: &mut S,
) -> Result<(), JsonFault>
    requires { S.holds slots.old slots.old no_members }
    ensures ok { OnOk result ((length bytes.now ≤ most)
        × ((tree : Data) × (mixed_tree_of S.is_verbatim bytes.now ≡ Some tree) × S.holds slots.old slots.new (members_in tree))) }
    ensures err { IfErr result (λ fault. IsNoMixedTree S.is_verbatim most fault bytes.now) }
{
    let text = text_of(bytes, most)?;
    match read_whole(alloc, scratch, text, slots) {
        Ok(()) => Ok(()),
        Err(fault) => Err(JsonFault::of(fault)),
    }
}

/// Reads the members of a top-level object from a text.
fn read_whole<'a, S: Slots<'a>>(
    alloc: Global,
    scratch: &'a mut Scratch,
    text: &'a str,
    slots: &mut S,
) -> Result<(), ReadFault>
    requires { S.holds slots.old slots.old no_members }
    ensures ok { OnOk result ((tree : Data) × (mixed_tree_of_text S.is_verbatim text.now ≡ Some tree) × S.holds slots.old slots.new (members_in tree)) }
    ensures err { result ≡ Err ReadFault.NotJson → read_text text.now ≡ None }
{
    let mut reader = Reader::new(text, scratch)?;
    read_object(alloc, &mut reader, MAX_DEPTH, slots)?;
    end(&mut reader)
}

/// Checks that no token is left. `Err` is `ReadFault::NotJson` if one is.
#[inline(always)]
pub fn end(reader: &mut Reader<'_>) -> Result<(), ReadFault>
    ensures ok { OnOk result (reader.old ≡ []) }
    ensures err { OnErr result (reader.old ≢ []) }
{
    if reader.next().is_some() {
        Err(ReadFault::NotJson)
    } else {
        Ok(())
    }
}
