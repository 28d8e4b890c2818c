//! The members of `range` of a diagnostic.

ghost use Rattle.std.specs.Prelude.{◌≡◌, ◌<◌, Err, OnOk, Some, length};
ghost use Rattle.serde_json.specs.Data.{Data};
ghost use Rattle.apply_json.specs.Verbatim.{none_verbatim};
ghost use Rattle.apply_json.specs.Tokens.{IsNoValue, IsRead};
ghost use Rattle.stream_message.specs.Slots.{HoldsRange, inside};

use crate::inner_slot::InnerSlot;
use apply_json::{
    ReadFault, Reader, Shallow, Slots, is_text, read_object, read_shallow_into, skip_member,
};
use std::alloc::Global;

/// The members of `range` of a diagnostic.
#[derive(Clone, Copy, Drop)]
pub struct RangeSlots<'a> {
    pub filename: Shallow<'a>,
    /// `start`, with its `line`.
    pub start: InnerSlot<'a>,
}

impl<'a> RangeSlots<'a> {
    ghost use Rattle.serde_json.specs.Data.{no_members};

    /// Slots of a diagnostic without `range`.
    pub(crate) fn new() -> RangeSlots<'a>
        ensures { HoldsRange result no_members }
    {
        RangeSlots {
            filename: Shallow::Absent,
            start: InnerSlot::new(),
        }
    }

    /// Reads `range` into its slots. Arrays and objects may nest `depth` deep. `Err` with
    /// `ReadFault::NotJson` where the value is no JSON. `Err` with `ReadFault::Memory` where memory
    /// is refused.
    pub(crate) fn read(
        alloc: Global,
        reader: &mut Reader<'a>,
        depth: usize,
        range: &mut RangeSlots<'a>,
    ) -> Result<(), ReadFault>
        ensures ok { OnOk result ((d : Data) × IsRead depth reader.old d reader.new
            × HoldsRange range.new (inside (Some d))) }
        ensures shorter { OnOk result (length reader.new < length reader.old) }
        ensures err { result ≡ Err ReadFault.NotJson → IsNoValue depth reader.old }
    {
        *range = RangeSlots::new();
        match read_object(alloc, reader, depth, range) {
            Ok(_) => Ok(()),
            Err(fault) => Err(fault),
        }
    }
}

impl<'a> Slots<'a> for RangeSlots<'a> {
    ghost is_verbatim = { none_verbatim };

    ghost holds = { λ _ slots ms. HoldsRange slots ms };

    fn take(
        &mut self,
        alloc: Global,
        name: &str,
        reader: &mut Reader<'a>,
        depth: usize,
    ) -> Result<(), ReadFault> {
        if is_text(name, "filename") {
            read_shallow_into(reader, depth, &mut self.filename)
        } else if is_text(name, "start") {
            InnerSlot::read(alloc, reader, depth, "line", &mut self.start)
        } else {
            skip_member(reader, depth)
        }
    }
}
