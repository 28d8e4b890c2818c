//! A slot for the member of one name.

ghost use Rattle.apply_json.specs.Verbatim.{none_verbatim};
ghost use Rattle.stream_message.specs.Selected.{HoldsNamed};

use crate::members::read_into_slot;
use apply_json::{ReadFault, Reader, Shallow, Slots, is_text, skip_member};
use std::alloc::Global;

/// A slot for the member of one name.
#[derive(Clone, Copy, Drop)]
pub struct NamedSlot<'a> {
    pub name: &'a str,
    pub value: Option<Shallow<'a>>,
}

impl<'a> Slots<'a> for NamedSlot<'a> {
    ghost is_verbatim = { none_verbatim };

    ghost holds = { λ start slot ms. HoldsNamed start.name.now slot ms };

    fn take(
        &mut self,
        _alloc: Global,
        name: &str,
        reader: &mut Reader<'a>,
        depth: usize,
    ) -> Result<(), ReadFault> {
        if is_text(name, self.name) {
            read_into_slot(reader, depth, &mut self.value)
        } else {
            skip_member(reader, depth)
        }
    }
}
