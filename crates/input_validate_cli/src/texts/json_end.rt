//! Where bytes stop being JSON.
//!
//! The reader refuses a text at one of its tokens. That the place is in the text is proved, and that
//! it is the place of this token is tested.

ghost use Rattle.std.specs.Prelude.{◌<◌, ◌≤◌, ◌≡◌, IfOk, IsUtf8, OnOk, length, take};
ghost use Rattle.std.specs.Str.{IsValidUpTo};
ghost use Rattle.input_validate_cli.specs.Places.{IsJsonEnd};

use crate::texts::text_place::TextPlace;
use apply_json::{MAX_DEPTH, Reader, Scratch, ValueStart, read_start};
use std::alloc::{AllocError, Global};

/// Returns the place where bytes stop being JSON: the first byte that is no UTF-8, or the first
/// token that stands where JSON does not allow it, nests too deep or is a number out of range.
/// It is the end of the bytes if they are cut off, or if they are JSON. `Err` means that memory was
/// refused.
pub fn json_end(alloc: Global, bytes: &[u8]) -> Result<TextPlace, AllocError>
    ensures { IfOk result (IsJsonEnd bytes.now) }
{
    let offset = json_len(alloc, bytes)?;
    Ok(TextPlace::behind(first_bytes(bytes, offset)))
}

/// Returns the first bytes.
fn first_bytes(bytes: &[u8], count: usize) -> &[u8]
    ensures { result.now ≡ take count bytes.now }
{
    match bytes.get(..count) {
        Some(first) => first,
        None => bytes,
    }
}

/// Returns how many bytes are JSON so far.
fn json_len(alloc: Global, bytes: &[u8]) -> Result<usize, AllocError>
    ensures inside { IfOk result (λ len. len ≤ length bytes.now) }
    ensures utf8 { IfOk result (λ len. ¬ IsUtf8 bytes.now → IsValidUpTo bytes.now len) }
{
    match str::from_utf8(bytes) {
        Ok(text) => json_len_of(alloc, text),
        Err(fault) => Ok(fault.valid_up_to()),
    }
}

/// Returns how many bytes of a text are JSON so far.
fn json_len_of(alloc: Global, text: &str) -> Result<usize, AllocError>
    ensures { IfOk result (λ len. len ≤ length text.now) }
{
    let mut scratch = Scratch::new(alloc);
    let mut reader = Reader::new(text, &mut scratch)?;
    match pass_document(&mut reader) {
        Ok(()) => Ok(text.len()),
        Err(offset) => Ok(offset.min(text.len())),
    }
}

/// Passes over one value and the end of the text. `Err` is the offset of the token that is refused.
fn pass_document(reader: &mut Reader<'_>) -> Result<(), usize> {
    pass_value(reader, MAX_DEPTH)?;
    let offset = reader.offset();
    if reader.next().is_some() {
        return Err(offset);
    }
    Ok(())
}

/// Passes over one value. Arrays and objects in it may nest at most `depth` deep. `Err` is the
/// offset of the token that is refused.
#[cycle(pass_value)]
fn pass_value(reader: &mut Reader<'_>, depth: usize) -> Result<(), usize>
    ensures { OnOk result (length reader.new < length reader.old) }
{
    let offset = reader.offset();
    match read_start(reader, depth) {
        Ok(ValueStart::Shallow(_)) => Ok(()),
        Ok(ValueStart::Array) => pass_items(reader, depth - 1),
        Ok(ValueStart::Object) => pass_members(reader, depth - 1),
        Err(_) => Err(offset),
    }
}

/// Passes over an array after its `[`. `Err` is as in `pass_value`.
#[cycle(pass_value)]
fn pass_items(reader: &mut Reader<'_>, depth: usize) -> Result<(), usize>
    ensures { OnOk result (length reader.new < length reader.old) }
{
    'items: while !reader.take_end_array() {
        pass_value(reader, depth)?;
    }
    Ok(())
}

/// Passes over an object after its `{`. `Err` is as in `pass_value`.
#[cycle(pass_value)]
fn pass_members(reader: &mut Reader<'_>, depth: usize) -> Result<(), usize>
    ensures { OnOk result (length reader.new < length reader.old) }
{
    'members: while pass_key(reader)? {
        pass_value(reader, depth)?;
    }
    Ok(())
}

/// Passes over a key, and returns whether there is one before the end of the object. `Err` is as in
/// `pass_value`.
fn pass_key(reader: &mut Reader<'_>) -> Result<bool, usize>
    ensures { OnOk result (length reader.new < length reader.old) }
{
    let offset = reader.offset();
    match reader.next_key() {
        Ok(name) => Ok(name.is_some()),
        Err(_) => Err(offset),
    }
}
