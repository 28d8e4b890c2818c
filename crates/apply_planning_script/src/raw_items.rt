//! Reads the items of `planning`.

ghost use Rattle.std.specs.Prelude.{◌≡◌, []};
ghost use Rattle.apply_plan.specs.Script.Entry.{is_verbatim_name};
ghost use Rattle.apply_planning_script.specs.Planning.{items_in};
ghost use Rattle.apply_planning_script.specs.RawItems.{read_view};

use crate::raw_item::RawItem;
use apply_json::{Collector, ReadFault, Reader, skip_member};
use apply_plan::PlanningError;
use std::alloc::Global;

/// The most items.
const MAX_ITEMS: usize = 9_999;

/// The items that were read, up to the first that is none.
#[derive(Drop)]
pub struct RawItems<'a> {
    pub items: Vec<RawItem<'a>>,
    /// Why the item after these is none.
    pub fault: Option<PlanningError>,
}

impl<'a> RawItems<'a> {
    /// The state before any item was read.
    pub fn new(alloc: Global) -> RawItems<'a>
        ensures { read_view result ≡ items_in [] }
    {
        RawItems {
            items: Vec::new(alloc),
            fault: None,
        }
    }
}

impl<'a> Collector<'a> for RawItems<'a> {
    ghost is_verbatim = { is_verbatim_name };

    ghost holds = { λ _ items_read ds. read_view items_read ≡ items_in ds };

    fn take(
        &mut self,
        alloc: Global,
        reader: &mut Reader<'a>,
        depth: usize,
    ) -> Result<(), ReadFault> {
        if self.fault.is_some() {
            return skip_member(reader, depth);
        }
        if self.items.len() >= MAX_ITEMS {
            self.fault = Some(PlanningError::TooMany);
            return skip_member(reader, depth);
        }
        match RawItem::read(alloc, reader, depth)? {
            Some(item) => self.items.push(item)?,
            None => self.fault = Some(PlanningError::Malformed(self.items.len())),
        }
        Ok(())
    }
}
