//! Reads a value without the contents of arrays and objects.

ghost use Rattle.std.specs.Prelude.{◌≡◌, ◌<◌, length, Err, IfOk, OnErr, OnOk, Some};
ghost use Rattle.std.specs.Option.{option_copied};
ghost use Rattle.serde_json.specs.Data.{Data};
ghost use Rattle.apply_json.specs.ShallowView.{shallow_view, shallow_of, shallow_text, shallow_text_or, shallow_whole};
ghost use Rattle.apply_json.specs.Tokens.{IsNoValue, IsRead};

use crate::read_fault::ReadFault;
use crate::skipping::{skip_items, skip_members};
use crate::value_start::{ValueStart, read_start};
use json::{Invalid, Reader};
use serde_json::Number;

/// A value without the contents of arrays and objects. Texts are borrowed from the input.
#[derive(Clone, Copy, Drop)]
pub enum Shallow<'a> {
    /// The value is missing or `null`.
    Absent,
    Bool(bool),
    Number(Number),
    Text(&'a str),
    Array,
    Object,
}

impl<'a> Shallow<'a> {
    /// The text, or `None` for any other value.
    pub fn text(self) -> Option<&'a str>
        ensures { option_copied result ≡ shallow_text (shallow_view self.entry) }
    {
        match self {
            Shallow::Text(text) => Some(text),
            _ => None,
        }
    }

    /// The text, or `missing` if the value is absent. `None` means a value of another type.
    pub fn text_or(self, missing: &'a str) -> Option<&'a str>
        ensures { option_copied result ≡ shallow_text_or missing.now (shallow_view self.entry) }
    {
        match self {
            Shallow::Absent => Some(missing),
            Shallow::Text(text) => Some(text),
            _ => None,
        }
    }

    /// The whole number from 0 to 2^64 - 1. `None` means any other value.
    pub fn whole(self) -> Option<u64>
        ensures { result ≡ shallow_whole (shallow_view self.entry) }
    {
        match self {
            Shallow::Number(number) => number.as_u64(),
            _ => None,
        }
    }
}

/// Reads a value and skips the contents of an array or object.
///
/// Arrays and objects in the value may nest at most `depth` deep. `Err` means that the text is not
/// JSON, that a number is out of range, or that values nest too deep.
#[inline(always)]
pub fn read_shallow<'a>(reader: &mut Reader<'a>, depth: usize) -> Result<Shallow<'a>, Invalid>
    ensures ok { IfOk result (λ s. (d : Data) × IsRead depth reader.old d reader.new × (shallow_view s ≡ shallow_of (Some d))) }
    ensures err { OnErr result (IsNoValue depth reader.old) }
    ensures shorter { OnOk result (length reader.new < length reader.old) }
{
    match read_start(reader, depth)? {
        ValueStart::Shallow(shallow) => Ok(shallow),
        ValueStart::Array => match skip_items(reader, depth - 1) {
            Ok(()) => Ok(Shallow::Array),
            Err(fault) => Err(fault),
        },
        ValueStart::Object => match skip_members(reader, depth - 1) {
            Ok(()) => Ok(Shallow::Object),
            Err(fault) => Err(fault),
        },
    }
}

/// Reads a value like [`read_shallow`], into a slot.
///
/// `Err` is always `ReadFault::NotJson`, and leaves the slot unchanged.
#[inline(always)]
pub fn read_shallow_into<'a>(
    reader: &mut Reader<'a>,
    depth: usize,
    slot: &mut Shallow<'a>,
) -> Result<(), ReadFault>
    ensures ok { OnOk result ((d : Data) × IsRead depth reader.old d reader.new × (shallow_view slot.new ≡ shallow_of (Some d))) }
    ensures shorter { OnOk result (length reader.new < length reader.old) }
    ensures err { result ≡ Err ReadFault.NotJson → IsNoValue depth reader.old }
{
    match read_shallow(reader, depth) {
        Ok(found) => {
            *slot = found;
            Ok(())
        }
        Err(_) => Err(ReadFault::NotJson),
    }
}
