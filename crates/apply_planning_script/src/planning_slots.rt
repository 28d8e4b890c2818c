//! The top level of a script, as far as a planning needs it.

ghost use Rattle.std.specs.Prelude.{◌≡◌};
ghost use Rattle.serde_json.specs.Data.{Data, no_members};
ghost use Rattle.apply_json.specs.ShallowView.{members_in};
ghost use Rattle.apply_plan.specs.Results.{IsExactly};
ghost use Rattle.apply_plan.specs.Script.Entry.{is_verbatim_name};
ghost use Rattle.apply_planning_script.specs.Planning.{said_in_tree};
ghost use Rattle.apply_planning_script.specs.RawItems.{HoldsPlanning, read_view};

use crate::raw_items::RawItems;
use apply_json::{ArrayPresence, ReadFault, Reader, Slots, is_text, read_list, skip_member};
use apply_plan::ScriptError;
use std::alloc::Global;

/// The member `planning` of a script, while the script is read.
#[derive(Drop)]
pub struct PlanningSlots<'a> {
    pub items: RawItems<'a>,
    /// Whether `planning` is an array.
    pub planning: ArrayPresence,
}

impl<'a> PlanningSlots<'a> {
    /// Slots before any member was read.
    pub fn new(alloc: Global) -> PlanningSlots<'a>
        ensures { HoldsPlanning result no_members }
    {
        PlanningSlots {
            items: RawItems::new(alloc),
            planning: ArrayPresence::Absent,
        }
    }

    /// The items. `Err` is `ScriptError::BadShape(None)` if `planning` is neither an array nor
    /// absent.
    pub fn items(self) -> Result<RawItems<'a>, ScriptError>
        ensures { (d : Data) → HoldsPlanning self.entry (members_in d) → IsExactly read_view result (said_in_tree d) }
    {
        match self.planning {
            ArrayPresence::List | ArrayPresence::Absent => Ok(self.items),
            ArrayPresence::Other => Err(ScriptError::BadShape(None)),
        }
    }
}

impl<'a> Slots<'a> for PlanningSlots<'a> {
    ghost is_verbatim = { is_verbatim_name };

    ghost holds = { λ _ slots ms. HoldsPlanning slots ms };

    fn take(
        &mut self,
        alloc: Global,
        name: &str,
        reader: &mut Reader<'a>,
        depth: usize,
    ) -> Result<(), ReadFault> {
        if is_text(name, "planning") {
            self.items = RawItems::new(alloc);
            self.planning = read_list(alloc, reader, depth, &mut self.items)?;
            Ok(())
        } else {
            skip_member(reader, depth)
        }
    }
}
