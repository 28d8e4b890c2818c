//! The members of a line.

ghost use Rattle.std.specs.Prelude.{◌≡◌};
ghost use Rattle.std.specs.Option.{option_copied};
ghost use Rattle.apply_json.specs.Verbatim.{none_verbatim};
ghost use Rattle.stream_message.specs.Slots.{HoldsLine};
ghost use Rattle.stream_message.specs.SlotValues.{version_in};

use crate::changes_slots::ChangesSlots;
use crate::diagnostic_slots::DiagnosticSlots;
use crate::hook_slots::HookSlots;
use crate::line_head::LineHead;
use crate::members::is_selected;
use crate::selection::Selection;
use apply_json::{ReadFault, Reader, Shallow, Slots, read_shallow_into};
use std::alloc::Global;

/// The members of a line that a tool selects (Machine-Readable UI, "Message Types").
#[derive(Clone, Copy, Drop)]
pub struct LineSlots<'a> {
    /// Which members are read.
    pub selection: Selection,
    /// `type` and `@timestamp`.
    pub head: LineHead<'a>,
    /// `terraform`, the version.
    pub terraform: Shallow<'a>,
    pub hook: HookSlots<'a>,
    /// `change`, which names an object and an action as `hook` does.
    pub change: HookSlots<'a>,
    pub changes: ChangesSlots<'a>,
    pub diagnostic: DiagnosticSlots<'a>,
}

impl<'a> LineSlots<'a> {
    ghost use Rattle.serde_json.specs.Data.{no_members};

    /// Slots of an object without members, for the members that are selected.
    pub fn new(selection: Selection) -> LineSlots<'a>
        ensures { HoldsLine selection result no_members }
    {
        LineSlots {
            selection,
            head: LineHead::new(),
            terraform: Shallow::Absent,
            hook: HookSlots::new(),
            change: HookSlots::new(),
            changes: ChangesSlots::new(),
            diagnostic: DiagnosticSlots::new(),
        }
    }

    /// Returns the version of Terraform (`terraform`). `None` if it is missing or no text.
    pub fn version(&self) -> Option<&'a str>
        ensures { option_copied result ≡ version_in self.now }
    {
        self.terraform.text()
    }
}

impl<'a> Slots<'a> for LineSlots<'a> {
    ghost is_verbatim = { none_verbatim };

    ghost holds = { λ start now ms. HoldsLine start.selection now ms };

    fn take(
        &mut self,
        alloc: Global,
        name: &str,
        reader: &mut Reader<'a>,
        depth: usize,
    ) -> Result<(), ReadFault> {
        if is_selected(self.selection.hook, name, "hook") {
            HookSlots::read(alloc, reader, depth, &mut self.hook)
        } else if is_selected(self.selection.change, name, "change") {
            HookSlots::read(alloc, reader, depth, &mut self.change)
        } else if is_selected(self.selection.changes, name, "changes") {
            ChangesSlots::read(alloc, reader, depth, &mut self.changes)
        } else if is_selected(self.selection.diagnostic, name, "diagnostic") {
            let texts = self.selection.diagnostic_texts;
            DiagnosticSlots::read(alloc, reader, depth, texts, &mut self.diagnostic)
        } else if is_selected(self.selection.version, name, "terraform") {
            read_shallow_into(reader, depth, &mut self.terraform)
        } else {
            self.head.take(alloc, name, reader, depth)
        }
    }
}
