//! The member `change` of an element.

ghost use Rattle.std.specs.Prelude.{◌≡◌, ◌<◌, Err, OnOk, Some, length, option_map};
ghost use Rattle.serde_json.specs.Data.{Data};
ghost use Rattle.apply_json.specs.Tokens.{IsNoValue, IsRead};
ghost use Rattle.apply_plan.specs.Plan.ElementView.{planned_change_view};
ghost use Rattle.apply_plan.specs.Plan.Members.{change_read, change_member};

use crate::plan::change_slots::ChangeSlots;
use apply_json::{ReadFault, Reader, read_object};
use apply_model::Action;
use std::alloc::Global;

/// The action and the id that `change` states.
#[derive(Clone, Copy, Drop)]
pub struct PlannedChange<'a> {
    /// `None` means that the action list is not one of the eight valid lists.
    pub action: Option<Action>,
    /// The id before the change. `None` means no text, an empty text, or a hidden one.
    pub prior_id: Option<&'a str>,
}

impl<'a> PlannedChange<'a> {
    /// Reads the member into its slot. The slot becomes `None` if there is no action list.
    ///
    /// `Err` means that the text is not JSON.
    pub fn read(
        alloc: Global,
        reader: &mut Reader<'a>,
        depth: usize,
        slot: &mut Option<PlannedChange<'a>>,
    ) -> Result<(), ReadFault>
        ensures ok { OnOk result ((d : Data) × IsRead depth reader.old d reader.new
            × (option_map planned_change_view slot.new ≡ change_member (Some d))) }
        ensures shorter { OnOk result (length reader.new < length reader.old) }
        ensures err { result ≡ Err ReadFault.NotJson → IsNoValue depth reader.old }
    {
        let mut slots = ChangeSlots::new();
        match read_object(alloc, reader, depth, &mut slots) {
            Ok(_) => {
                *slot = PlannedChange::of(&slots);
                Ok(())
            }
            Err(fault) => Err(fault),
        }
    }

    /// Combines the members. `None` means that there is no action list.
    fn of(slots: &ChangeSlots<'a>) -> Option<PlannedChange<'a>>
        ensures { option_map planned_change_view result ≡ change_read slots.now }
    {
        let Some(action) = slots.actions else {
            return None;
        };
        let prior_id = if slots.hides_id { None } else { slots.id };
        Some(PlannedChange { action, prior_id })
    }
}
