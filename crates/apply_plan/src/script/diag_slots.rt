//! The members of a diagnostic.

ghost use Rattle.apply_plan.specs.Script.Entry.{is_verbatim_name};
ghost use Rattle.apply_plan.specs.Script.Members.{HoldsDiag};

use crate::members::take_member;
use crate::script::object_text::read_object_text;
use apply_json::{ReadFault, Reader, Shallow, Slots, read_shallow_into};
use std::alloc::Global;

/// The members of a diagnostic, while they are read.
///
/// `range` and `snippet` are raw JSON text. `Some(None)` means absent, `None` means invalid.
#[derive(Drop)]
pub struct DiagSlots<'a> {
    pub summary: Shallow<'a>,
    pub detail: Shallow<'a>,
    pub range: Option<Option<String>>,
    pub snippet: Option<Option<String>>,
    pub severity: Shallow<'a>,
}

impl<'a> DiagSlots<'a> {
    ghost use Rattle.serde_json.specs.Data.{no_members};

    /// Slots before any member was read.
    pub fn new() -> DiagSlots<'a>
        ensures { HoldsDiag result no_members }
    {
        DiagSlots {
            summary: Shallow::Absent,
            detail: Shallow::Absent,
            range: Some(None),
            snippet: Some(None),
            severity: Shallow::Absent,
        }
    }
}

impl<'a> Slots<'a> for DiagSlots<'a> {
    ghost is_verbatim = { is_verbatim_name };

    ghost holds = { λ _ slots ms. HoldsDiag slots ms };

    fn take(
        &mut self,
        alloc: Global,
        name: &str,
        reader: &mut Reader<'a>,
        depth: usize,
    ) -> Result<(), ReadFault> {
        take_member! {
            name, reader, depth,
            "summary" => read_shallow_into(reader, depth, &mut self.summary),
            "detail" => read_shallow_into(reader, depth, &mut self.detail),
            "range" => read_object_text(alloc, reader, depth, &mut self.range),
            "snippet" => read_object_text(alloc, reader, depth, &mut self.snippet),
            "severity" => read_shallow_into(reader, depth, &mut self.severity),
        }
    }
}
