//! The slots of a diagnostic while it is read.

ghost use Rattle.apply_json.specs.Verbatim.{none_verbatim};
ghost use Rattle.stream_message.specs.Selected.{HoldsSelectedDiagnostic};

use crate::diagnostic_slots::DiagnosticSlots;
use crate::members::{is_selected, read_into_slot};
use crate::range_slots::RangeSlots;
use apply_json::{ReadFault, Reader, Slots, is_text, read_shallow_into, skip_member};
use std::alloc::Global;

/// The slots of a diagnostic, and whether its texts are read.
#[derive(Clone, Copy, Drop)]
pub struct SelectedDiagnostic<'a> {
    pub texts: bool,
    pub slots: DiagnosticSlots<'a>,
}

impl<'a> Slots<'a> for SelectedDiagnostic<'a> {
    ghost is_verbatim = { none_verbatim };

    ghost holds = { λ start now ms. HoldsSelectedDiagnostic start.texts now ms };

    fn take(
        &mut self,
        alloc: Global,
        name: &str,
        reader: &mut Reader<'a>,
        depth: usize,
    ) -> Result<(), ReadFault> {
        if is_text(name, "severity") {
            read_into_slot(reader, depth, &mut self.slots.severity)
        } else if is_text(name, "address") {
            read_into_slot(reader, depth, &mut self.slots.address)
        } else if is_selected(self.texts, name, "summary") {
            read_shallow_into(reader, depth, &mut self.slots.summary)
        } else if is_selected(self.texts, name, "detail") {
            read_shallow_into(reader, depth, &mut self.slots.detail)
        } else if is_selected(self.texts, name, "range") {
            RangeSlots::read(alloc, reader, depth, &mut self.slots.range)
        } else {
            skip_member(reader, depth)
        }
    }
}
