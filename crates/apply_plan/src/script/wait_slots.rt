//! The members of an item of `after`.

ghost use Rattle.apply_plan.specs.Script.Entry.{is_verbatim_name};
ghost use Rattle.apply_plan.specs.Script.Members.{HoldsWait};

use crate::members::take_member;
use apply_json::{ReadFault, Reader, Shallow, Slots, read_shallow_into};
use std::alloc::Global;

/// The members of an item of `after`, while they are read.
#[derive(Clone, Copy, Drop)]
pub struct WaitSlots<'a> {
    pub address: Shallow<'a>,
    pub deposed: Shallow<'a>,
    pub step: Shallow<'a>,
}

impl<'a> WaitSlots<'a> {
    ghost use Rattle.serde_json.specs.Data.{no_members};

    /// Slots before any member was read.
    pub fn new() -> WaitSlots<'a>
        ensures { HoldsWait result no_members }
    {
        WaitSlots {
            address: Shallow::Absent,
            deposed: Shallow::Absent,
            step: Shallow::Absent,
        }
    }
}

impl<'a> Slots<'a> for WaitSlots<'a> {
    ghost is_verbatim = { is_verbatim_name };

    ghost holds = { λ _ slots ms. HoldsWait slots ms };

    fn take(
        &mut self,
        _alloc: Global,
        name: &str,
        reader: &mut Reader<'a>,
        depth: usize,
    ) -> Result<(), ReadFault> {
        take_member! {
            name, reader, depth,
            "address" => read_shallow_into(reader, depth, &mut self.address),
            "deposed" => read_shallow_into(reader, depth, &mut self.deposed),
            "step" => read_shallow_into(reader, depth, &mut self.step),
        }
    }
}
