//! How many told objects of each name are not done.
//!
//! Every `Err` means that memory was refused.

ghost use Rattle.std.specs.Prelude.{◌≡◌, ◌<◌, ◌≤◌, ◌^◌, IfOk, List, None, Option, length};
ghost use Rattle.apply_events.specs.Waits.Queue.{none_done, with_step_done};
ghost use Rattle.apply_planning.specs.NumberOf.{HasNumbers};

use crate::names::Names;
use crate::told::Told;
use apply_events::LaneTime;
use apply_model::Wait;
use std::alloc::{AllocError, Global};

/// What is known of a name.
#[derive(Clone, Copy)]
pub struct PendingName {
    /// How many told objects of the name are not done.
    pub pending: u32,
    /// The latest time at which one of the others was done.
    pub at: LaneTime,
}

/// The told objects of each name that are not done.
#[derive(Drop)]
pub struct PendingNames {
    /// For each told object, the number of its name.
    owners: Vec<u32>,
    /// For each number, what is known of its name.
    names: Vec<PendingName>,
}

impl PendingNames {
    ghost use Rattle.apply_model.specs.declared.script.wait.Wait.{Wait};
    ghost use Rattle.apply_events.specs.declared.lanes.lane_time.LaneTime.{LaneTime};
    ghost use Rattle.apply_planning.specs.declared.told.Told.{Told};
    ghost use Rattle.apply_planning.specs.PendingNames.{ArePending, Closes, max_told};

    /// No told object is done.
    pub(crate) fn new(
        alloc: Global,
        told: &[Told],
        names: &Names<'_>,
    ) -> Result<PendingNames, AllocError>
        requires few { length told.now < 2 ^ 32 }
        requires names { HasNumbers told.now names.now }
        ensures { IfOk result (λ pending. ArePending told.now none_done pending) }
    {
        let first = LaneTime::first();
        let mut pending = PendingNames {
            owners: Vec::with_capacity(alloc, told.len())?,
            names: vec![in alloc; PendingName {
                pending: 0,
                at: first
            }; told.len()]?,
        };
        for one in told {
            let number = names.get(one.name.as_str()).unwrap();
            pending.owners.push(number)?;
            pending.names[number as usize].pending += 1;
        }
        Ok(pending)
    }

    /// Records that a told object is done, and when. Returns the name with the time at which it is
    /// done, if no told object of the name is pending now.
    pub(crate) fn close(&mut self, number: u32, at: LaneTime) -> Option<(Wait, LaneTime)>
        requires low { at.round ≤ max_told }
        requires known { (told : List Told) × (done : Wait → Option LaneTime) × ArePending told done self.old
            × (number < length told) × (done (record { change = number; step = 0 }) ≡ None) }
        ensures pending { (told : List Told) (done : Wait → Option LaneTime) → ArePending told done self.old
            → number < length told → done (record { change = number; step = 0 }) ≡ None
            → ArePending told (with_step_done done (record { change = number; step = 0 }) at) self.new }
        ensures closes { Closes self.old result self.new }
    {
        let owner = self.owners[number as usize];
        let name = self.names[owner as usize];
        let pending = name.pending - 1;
        let at = name.at.later_of(at);
        self.names[owner as usize] = PendingName { pending, at };
        if pending == 0 {
            let wait = Wait {
                change: owner,
                step: 0,
            };
            Some((wait, at))
        } else {
            None
        }
    }
}
