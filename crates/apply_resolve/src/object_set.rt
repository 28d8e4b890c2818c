//! The objects that a plan has named so far.
//!
//! Every `Err` means that memory was refused.

ghost use Rattle.std.specs.Prelude.{◌≡◌, ◌||◌, IfOk, OnOk, false, not};

use crate::hashed_id::HashedId;
use crate::object_id::ObjectId;
use std::alloc::{AllocError, Global};
use std::collections::BTreeSet;

/// A set of objects, ordered by their hashes, so a look-up takes few comparisons of addresses
/// whatever the addresses are.
#[derive(Drop)]
pub struct ObjectSet<'a> {
    ids: BTreeSet<HashedId<'a>>,
}

impl<'a> ObjectSet<'a> {
    ghost use Rattle.apply_resolve.specs.ObjectIds.{is_same_id};
    ghost use Rattle.apply_resolve.specs.ObjectSet.{has_object};

    /// The empty set.
    pub fn new(alloc: Global) -> Self
        ensures { (id : _) → has_object result id ≡ false }
    {
        ObjectSet {
            ids: BTreeSet::new(alloc),
        }
    }

    /// Adds the object, and returns whether it is new. `Err` where memory is refused.
    pub fn insert(&mut self, id: ObjectId<'a>) -> Result<bool, AllocError>
        ensures fresh { IfOk result (λ fresh. fresh ≡ not (has_object self.old id.entry)) }
        ensures added { OnOk result ((other : _)
            → has_object self.new other ≡ (is_same_id id.entry other || has_object self.old other)) }
    {
        Ok(self.ids.insert(HashedId::of(id))?)
    }
}
