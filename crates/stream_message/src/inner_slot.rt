//! An object in a message, of which one member is read.

ghost use Rattle.std.specs.Prelude.{◌≡◌, ◌<◌, ℕ, Err, List, None, OnOk, Some, length};
ghost use Rattle.std.specs.Option.{option_copied};
ghost use Rattle.serde_json.specs.Data.{Data};
ghost use Rattle.apply_json.specs.Tokens.{IsNoValue, IsRead};
ghost use Rattle.stream_message.specs.Slots.{inner_of, inner_view};
ghost use Rattle.stream_message.specs.SlotValues.{text_in_inner, whole_in_inner};

use crate::members::{text_in, whole_in};
use crate::named_slot::NamedSlot;
use crate::presence::Presence;
use apply_json::{ReadFault, Reader, Shallow, read_object};
use std::alloc::Global;

/// An object in a message, of which one member is read.
#[derive(Clone, Copy, Drop)]
pub struct InnerSlot<'a> {
    pub is: Presence,
    /// The member. `None` if it is missing, or if its object is.
    pub value: Option<Shallow<'a>>,
}

impl<'a> InnerSlot<'a> {
    /// The slot of an object that is missing.
    pub(crate) fn new() -> InnerSlot<'a>
        ensures { (name : List ℕ) → inner_view result ≡ inner_of name None }
    {
        InnerSlot {
            is: Presence::Missing,
            value: None,
        }
    }

    /// Reads a value, and its member of that name, into the slot. Arrays and objects may nest
    /// `depth` deep. `Err` with `ReadFault::NotJson` where the value is no JSON. `Err` with
    /// `ReadFault::Memory` where memory is refused.
    #[inline(always)]
    pub(crate) fn read(
        alloc: Global,
        reader: &mut Reader<'a>,
        depth: usize,
        name: &'a str,
        slot: &mut InnerSlot<'a>,
    ) -> Result<(), ReadFault>
        ensures ok { OnOk result ((d : Data) × IsRead depth reader.old d reader.new
            × (inner_view slot.new ≡ inner_of name.now (Some d))) }
        ensures shorter { OnOk result (length reader.new < length reader.old) }
        ensures err { result ≡ Err ReadFault.NotJson → IsNoValue depth reader.old }
    {
        let mut named = NamedSlot { name, value: None };
        match read_object(alloc, reader, depth, &mut named) {
            Ok(value) => {
                *slot = InnerSlot {
                    is: Presence::of(value),
                    value: named.value,
                };
                Ok(())
            }
            Err(fault) => Err(fault),
        }
    }

    /// Returns the text of the member, if it is a text.
    #[inline(always)]
    pub fn text(&self) -> Option<&'a str>
        ensures { option_copied result ≡ text_in_inner self.now }
    {
        text_in(self.value)
    }

    /// Returns the whole number of the member, if it is one from 0 to 2^64 - 1.
    #[inline(always)]
    pub fn whole(&self) -> Option<u64>
        ensures { result ≡ whole_in_inner self.now }
    {
        whole_in(self.value)
    }
}
