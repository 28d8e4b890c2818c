//! The objects of a planning that were never done.
//!
//! Every `Err` means that memory was refused.

ghost use Rattle.std.specs.Prelude.{◌≡◌, ◌≤◌, ◌&&◌, List, length, true, if◌then◌else◌, is_some, IfOk, OnOk};
ghost use Rattle.std.specs.Map.{lookup};
ghost use Rattle.std.specs.Option.{option_copied};
ghost use Rattle.apply_resolve.specs.ObjectIds.{is_same_id};
ghost use Rattle.apply_events.specs.declared.event.Event.{Event};
ghost use Rattle.apply_planning_failures.specs.Planning.{AreBegun, is_lost};
ghost use Rattle.apply_planning_failures.specs.LostObjects.{has_object};

use crate::failures::has_failed;
use apply_planning::Told;
use apply_resolve::ObjectId;
use std::alloc::{AllocError, Global};
use std::collections::BTreeMap;

/// The told objects that were never done: each failed with an error, or waited in vain.
#[derive(Drop)]
pub struct LostObjects<'a> {
    ids: BTreeMap<ObjectId<'a>, bool>,
}

impl<'a> LostObjects<'a> {
    /// The objects of a planning. `begun` says of each told object whether it has an event.
    pub fn of(
        alloc: Global,
        told: &'a [Told],
        begun: &[bool],
    ) -> Result<LostObjects<'a>, AllocError>
        requires { length told.now ≤ length begun.now }
        ensures { IfOk result (λ lost. (events : List Event) → AreBegun (record { told = told.now; events = events }) begun.now → (id : _) → has_object lost id
            ≡ is_lost (record { told = told.now; events = events }) id.address.now (option_copied id.deposed)) }
    {
        let mut ids = BTreeMap::new(alloc);
        for number in 0..told.len() {
            let one = &told[number];
            let is_lost = has_failed(one) | !begun[number];
            add_if(&mut ids, is_lost, ObjectId::of_change(&one.object))?;
        }
        Ok(LostObjects { ids })
    }

    /// Whether the object was never done.
    pub(crate) fn has(&self, id: ObjectId<'a>) -> bool
        ensures { result ≡ has_object self.now id.entry }
    {
        self.ids.contains_key(&id)
    }
}

/// Adds the object, if it was never done.
fn add_if<'a>(
    ids: &mut BTreeMap<ObjectId<'a>, bool>,
    is_lost: bool,
    id: ObjectId<'a>,
) -> Result<(), AllocError>
    ensures { OnOk result ((other : _) → is_some (lookup (is_same_id other) ids.new.entries)
        ≡ (if is_lost && is_same_id id.entry other then true else is_some (lookup (is_same_id other) ids.old.entries))) }
{
    if is_lost {
        ids.insert(id, true)?;
    }
    Ok(())
}
