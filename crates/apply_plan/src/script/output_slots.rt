//! The members of an item of `output`.

ghost use Rattle.apply_plan.specs.Script.Entry.{is_verbatim_name};
ghost use Rattle.apply_plan.specs.Script.Members.{HoldsOutput};

use crate::members::take_member;
use apply_json::{ReadFault, Reader, Shallow, Slots, read_shallow_into};
use std::alloc::Global;

/// The members of an item of `output`, while they are read.
#[derive(Clone, Copy, Drop)]
pub struct OutputSlots<'a> {
    pub after: Shallow<'a>,
    pub text: Shallow<'a>,
}

impl<'a> OutputSlots<'a> {
    ghost use Rattle.serde_json.specs.Data.{no_members};

    /// Slots before any member was read.
    pub fn new() -> OutputSlots<'a>
        ensures { HoldsOutput result no_members }
    {
        OutputSlots {
            after: Shallow::Absent,
            text: Shallow::Absent,
        }
    }
}

impl<'a> Slots<'a> for OutputSlots<'a> {
    ghost is_verbatim = { is_verbatim_name };

    ghost holds = { λ _ slots ms. HoldsOutput slots ms };

    fn take(
        &mut self,
        _alloc: Global,
        name: &str,
        reader: &mut Reader<'a>,
        depth: usize,
    ) -> Result<(), ReadFault> {
        take_member! {
            name, reader, depth,
            "after" => read_shallow_into(reader, depth, &mut self.after),
            "text" => read_shallow_into(reader, depth, &mut self.text),
        }
    }
}
