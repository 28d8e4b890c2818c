//! Skips values that the caller ignores.
//!
//! A skipped value is checked like any other: its grammar (RFC 8259), its depth, and the range of
//! its numbers. `Err` means that one of these checks failed.

ghost use Rattle.std.specs.Prelude.{◌≡◌, ◌<◌, length, None, OnErr, OnOk, Some};
ghost use Rattle.json.specs.Json.{items, members, value};
ghost use Rattle.serde_json.specs.Data.{Data, Items, Members, no_members};
ghost use Rattle.serde_json.specs.Read.{converted, of_items, of_json, of_members};

use crate::value_start::{ValueStart, read_start};
use json::{Invalid, Reader};

/// Skips one value. Arrays and objects in the value may nest at most `depth` deep.
#[cycle(skip_value)]
#[inline(always)]
pub fn skip_value(reader: &mut Reader<'_>, depth: usize) -> Result<(), Invalid>
    ensures ok { OnOk result
        ((d : Data) × (converted of_json (value depth reader.old) ≡ Some (d, reader.new))) }
    ensures err { OnErr result (converted of_json (value depth reader.old) ≡ None) }
    ensures shorter { OnOk result (length reader.new < length reader.old) }
{
    match read_start(reader, depth)? {
        ValueStart::Shallow(_) => Ok(()),
        ValueStart::Array => skip_items(reader, depth - 1),
        ValueStart::Object => skip_members(reader, depth - 1),
    }
}

/// Skips an array after its `[`.
#[cycle(skip_value)]
#[inline(never)]
pub fn skip_items(reader: &mut Reader<'_>, depth: usize) -> Result<(), Invalid>
    ensures ok { OnOk result ((ds : Items)
        × (converted of_items (items (value depth) (length reader.old) reader.old)
        ≡ Some (ds, reader.new))) }
    ensures err { OnErr result
        (converted of_items (items (value depth) (length reader.old) reader.old) ≡ None) }
    ensures shorter { OnOk result (length reader.new < length reader.old) }
{
    'items: while !reader.take_end_array() {
        skip_value(reader, depth)?;
    }
    Ok(())
}

/// Skips an object after its `{`.
#[cycle(skip_value)]
#[inline(never)]
pub fn skip_members(reader: &mut Reader<'_>, depth: usize) -> Result<(), Invalid>
    ensures ok { OnOk result ((ds : Members)
        × (converted (λ ms. of_members ms no_members)
        (members (value depth) (length reader.old) reader.old) ≡ Some (ds, reader.new))) }
    ensures err { OnErr result
        (converted (λ ms. of_members ms no_members)
        (members (value depth) (length reader.old) reader.old) ≡ None) }
    ensures shorter { OnOk result (length reader.new < length reader.old) }
{
    'members: while let Some(_name) = reader.next_key()? {
        skip_value(reader, depth)?;
    }
    Ok(())
}
