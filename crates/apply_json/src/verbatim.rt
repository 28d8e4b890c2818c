//! Reads a value as raw JSON text (RFC 8259).
//!
//! The text is copied token by token: without blanks, with the shortest escapes, and with numbers
//! as they were written. Depth and number ranges are checked as for any other value.
//!
//! Every `Err` is a [`ReadFault`]: the text is not JSON, or memory was refused.

ghost use Rattle.std.specs.Prelude.{◌≡◌, ◌<◌, ◌++◌, length, string_bytes, Err, IfOk, OnOk};
ghost use Rattle.serde_json.specs.Data.{Data, Items, Members};
ghost use Rattle.apply_json.specs.Verbatim.{IsVerbatim};
ghost use Rattle.apply_json.specs.Tokens.{AreItems, AreMembers, AreNoItems, AreNoMembers, StartsValue, IsNoValue, IsRead};

use crate::read_fault::ReadFault;
use crate::value_start::{ValueStart, start_of_token};
use json::{Reader, Writer};
use std::alloc::Global;

/// Reads a value as raw JSON text. Arrays and objects in the value may nest at most `depth` deep.
pub fn read_verbatim(
    alloc: Global,
    reader: &mut Reader<'_>,
    depth: usize,
) -> Result<String, ReadFault>
    ensures ok { IfOk result (λ text. IsVerbatim depth reader.old (string_bytes text) reader.new) }
    ensures shorter { OnOk result (length reader.new < length reader.old) }
    ensures err { result ≡ Err ReadFault.NotJson → IsNoValue depth reader.old }
{
    let mut out = Writer::new(Vec::new(alloc));
    copy(reader, depth, &mut out)?;
    Ok(String::from_utf8(out.into_inner()).unwrap())
}

/// Copies one value to `out`. Arrays and objects in the value may nest at most `depth` deep.
///
/// The tokens in `out` followed by the tokens left in `reader` are the same as before the call.
#[cycle(copy)]
fn copy(reader: &mut Reader<'_>, depth: usize, out: &mut Writer) -> Result<(), ReadFault>
    ensures copied { OnOk result ((out.new.tokens ++ reader.new ≡ out.old.tokens ++ reader.old)
        × (out.new.before ≡ out.old.before)) }
    ensures tree { OnOk result ((d : Data) × IsRead depth reader.old d reader.new) }
    ensures shorter { OnOk result (length reader.new < length reader.old) }
    ensures err { result ≡ Err ReadFault.NotJson → IsNoValue depth reader.old }
{
    match copy_beginning(reader, depth, out)? {
        ValueStart::Shallow(_) => Ok(()),
        ValueStart::Array => copy_items(reader, depth - 1, out),
        ValueStart::Object => copy_members(reader, depth - 1, out),
    }
}

/// Copies the first token of a value.
#[inline(always)]
fn copy_beginning<'a>(
    reader: &mut Reader<'a>,
    depth: usize,
    out: &mut Writer,
) -> Result<ValueStart<'a>, ReadFault>
    ensures ok { IfOk result (λ value_start. StartsValue value_start depth reader.old reader.new) }
    ensures copied { OnOk result ((out.new.tokens ++ reader.new ≡ out.old.tokens ++ reader.old)
        × (out.new.before ≡ out.old.before)) }
    ensures shorter { OnOk result (length reader.new < length reader.old) }
    ensures err { result ≡ Err ReadFault.NotJson → IsNoValue depth reader.old }
{
    let token = reader.next().ok_or(ReadFault::NotJson)?;
    let value_start = start_of_token(token, depth)?;
    out.token(token)?;
    Ok(value_start)
}

/// Copies an array after its `[`.
#[cycle(copy)]
fn copy_items(reader: &mut Reader<'_>, depth: usize, out: &mut Writer) -> Result<(), ReadFault>
    ensures copied { OnOk result ((out.new.tokens ++ reader.new ≡ out.old.tokens ++ reader.old)
        × (out.new.before ≡ out.old.before)) }
    ensures tree { OnOk result ((ds : Items) × AreItems depth reader.old ds reader.new) }
    ensures shorter { OnOk result (length reader.new < length reader.old) }
    ensures err { result ≡ Err ReadFault.NotJson → AreNoItems depth reader.old }
{
    'items: while !reader.take_end_array() {
        copy(reader, depth, out)?;
    }
    out.end_array()?;
    Ok(())
}

/// Copies an object after its `{`.
#[cycle(copy)]
fn copy_members(reader: &mut Reader<'_>, depth: usize, out: &mut Writer) -> Result<(), ReadFault>
    ensures copied { OnOk result ((out.new.tokens ++ reader.new ≡ out.old.tokens ++ reader.old)
        × (out.new.before ≡ out.old.before)) }
    ensures tree { OnOk result ((ms : Members) × AreMembers depth reader.old ms reader.new) }
    ensures shorter { OnOk result (length reader.new < length reader.old) }
    ensures err { result ≡ Err ReadFault.NotJson → AreNoMembers depth reader.old }
{
    'members: while let Some(name) = reader.next_key()? {
        out.key(name)?;
        copy(reader, depth, out)?;
    }
    out.end_object()?;
    Ok(())
}
