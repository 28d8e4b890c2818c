//! The members of an item of `planning`.

ghost use Rattle.apply_plan.specs.Script.Entry.{is_verbatim_name};
ghost use Rattle.apply_planning_script.specs.ItemSlots.{HoldsItem};

use crate::members::take_member;
use apply_json::{ReadFault, Reader, Shallow, Slots, read_shallow_into};
use apply_plan::parts::RawFailure;
use std::alloc::Global;

/// The members of an item, while they are read. An outer `None` means that the member is invalid.
#[derive(Drop)]
pub struct ItemSlots<'a> {
    pub address: Shallow<'a>,
    pub deposed: Shallow<'a>,
    pub seconds: Shallow<'a>,
    pub id: Shallow<'a>,
    pub failed: Option<Option<RawFailure<'a>>>,
    pub gone: Shallow<'a>,
    pub skipped: Shallow<'a>,
}

impl<'a> ItemSlots<'a> {
    ghost use Rattle.serde_json.specs.Data.{no_members};

    /// Slots before any member was read.
    pub fn new() -> ItemSlots<'a>
        ensures { HoldsItem result no_members }
    {
        ItemSlots {
            address: Shallow::Absent,
            deposed: Shallow::Absent,
            seconds: Shallow::Absent,
            id: Shallow::Absent,
            failed: Some(None),
            gone: Shallow::Absent,
            skipped: Shallow::Absent,
        }
    }
}

impl<'a> Slots<'a> for ItemSlots<'a> {
    ghost is_verbatim = { is_verbatim_name };

    ghost holds = { λ _ slots ms. HoldsItem slots ms };

    fn take(
        &mut self,
        alloc: Global,
        name: &str,
        reader: &mut Reader<'a>,
        depth: usize,
    ) -> Result<(), ReadFault> {
        take_member! {
            name, reader, depth,
            "address" => read_shallow_into(reader, depth, &mut self.address),
            "deposed" => read_shallow_into(reader, depth, &mut self.deposed),
            "seconds" => read_shallow_into(reader, depth, &mut self.seconds),
            "id" => read_shallow_into(reader, depth, &mut self.id),
            "failed" => RawFailure::read(alloc, reader, depth, &mut self.failed),
            "gone" => read_shallow_into(reader, depth, &mut self.gone),
            "skipped" => read_shallow_into(reader, depth, &mut self.skipped),
        }
    }
}
