//! An item of `after`, before it is resolved.

ghost use Rattle.std.specs.Prelude.{◌≡◌, None, Some, nat_lt, option_map, if◌then◌else◌};
ghost use Rattle.apply_plan.specs.Script.Entry.{WaitName, wait_from};
ghost use Rattle.apply_plan.specs.Script.Members.{wait_read};
ghost use Rattle.apply_plan.specs.Script.RawView.{wait_view};
ghost use Rattle.apply_plan.specs.Script.WaitedStep.{number_waited};

use crate::script::list_item::ListItem;
use crate::script::number_or_none::number_or_none;
use crate::script::wait_slots::WaitSlots;
use apply_json::{ReadFault, Reader, Shallow, non_empty, read_object};
use apply_resolve::waited_step;
use std::alloc::Global;

/// A step to wait for, as an item of `after` names it.
#[derive(Clone, Copy)]
pub struct RawWait<'a> {
    pub address: &'a str,
    pub deposed: Option<&'a str>,
    /// The number of the step in its change, not checked yet. `None` means the last step.
    pub step: Option<u64>,
}

impl<'a> ListItem<'a> for RawWait<'a> {
    ghost Seen = { WaitName };

    ghost see = { wait_view };

    ghost part = { wait_from };

    fn read(
        alloc: Global,
        reader: &mut Reader<'a>,
        depth: usize,
    ) -> Result<Option<RawWait<'a>>, ReadFault> {
        let mut slots = WaitSlots::new();
        match read_object(alloc, reader, depth, &mut slots)? {
            Shallow::Text(address) => Ok(Some(RawWait {
                address,
                deposed: None,
                step: None,
            })),
            _ => Ok(RawWait::of(&slots)),
        }
    }
}

impl<'a> RawWait<'a> {
    /// Checks the members. `None` means that one is invalid or missing.
    fn of(slots: &WaitSlots<'a>) -> Option<RawWait<'a>>
        ensures { option_map wait_view result ≡ wait_read slots.now }
    {
        let texts = slots.address.text().zip(slots.deposed.text_or(""));
        let Some(((address, deposed), step)) = texts.zip(number_or_none(slots.step)) else {
            return None;
        };
        Some(RawWait {
            address,
            deposed: non_empty(deposed),
            step,
        })
    }

    /// The number of the named step in a change of `count` steps. `None` means that there is none.
    pub fn step_of(&self, count: u8) -> Option<u8>
        ensures { result ≡ (if nat_lt (number_waited count (wait_view self.now)) count
            then Some (number_waited count (wait_view self.now)) else None) }
    {
        waited_step(self.step, count)
    }
}
