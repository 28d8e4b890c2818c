//! The members of an entry.

ghost use Rattle.apply_plan.specs.Script.Entry.{is_verbatim_name};
ghost use Rattle.apply_plan.specs.Script.Members.{HoldsEntry};

use crate::members::take_member;
use crate::script::list_items::read_items;
use crate::script::raw_step::RawStep;
use apply_json::{ReadFault, Reader, Shallow, Slots, read_shallow_into};
use std::alloc::Global;

/// The members of an entry, while they are read.
#[derive(Drop)]
pub struct EntrySlots<'a> {
    pub address: Shallow<'a>,
    pub deposed: Shallow<'a>,
    pub steps: Option<Vec<RawStep<'a>>>,
}

impl<'a> EntrySlots<'a> {
    ghost use Rattle.serde_json.specs.Data.{no_members};

    /// Slots before any member was read.
    pub fn new() -> EntrySlots<'a>
        ensures { HoldsEntry result no_members }
    {
        EntrySlots {
            address: Shallow::Absent,
            deposed: Shallow::Absent,
            steps: None,
        }
    }
}

impl<'a> Slots<'a> for EntrySlots<'a> {
    ghost is_verbatim = { is_verbatim_name };

    ghost holds = { λ _ slots ms. HoldsEntry slots ms };

    fn take(
        &mut self,
        alloc: Global,
        name: &str,
        reader: &mut Reader<'a>,
        depth: usize,
    ) -> Result<(), ReadFault> {
        take_member! {
            name, reader, depth,
            "address" => read_shallow_into(reader, depth, &mut self.address),
            "deposed" => read_shallow_into(reader, depth, &mut self.deposed),
            "steps" => read_items(alloc, reader, depth, true, &mut self.steps),
        }
    }
}
