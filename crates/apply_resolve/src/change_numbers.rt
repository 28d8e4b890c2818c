//! The numbers of a plan's changes, by object.
//!
//! Every `Err` means that memory was refused.

ghost use Rattle.std.specs.Prelude.{◌≡◌, IfOk, find, option_map};
ghost use Rattle.std.specs.List.{enumerate_from};

use crate::hashed_id::HashedId;
use crate::object_id::ObjectId;
use apply_model::Plan;
use std::alloc::{AllocError, Global};
use std::collections::BTreeMap;

/// The number of the change of each object of a plan.
#[derive(Drop)]
pub struct ChangeNumbers<'a> {
    numbers: BTreeMap<HashedId<'a>, u32>,
}

impl<'a> ChangeNumbers<'a> {
    ghost use Rattle.apply_resolve.specs.ObjectIds.{is_of};
    ghost use Rattle.apply_resolve.specs.ChangeNumbers.{number_of};

    /// The numbers of the changes of the plan. `Err` where memory is refused.
    pub fn of(alloc: Global, plan: &'a Plan) -> Result<ChangeNumbers<'a>, AllocError>
        ensures { IfOk result (λ numbers. (id : _) → number_of numbers id
            ≡ option_map (λ p. p.0) (find (λ p. is_of id p.1) (enumerate_from 0 plan.now.changes))) }
    {
        let mut numbers = BTreeMap::new(alloc);
        // From the last change to the first, so that an object with several changes gets the first.
        for number in (0..plan.len()).rev() {
            let id = ObjectId::of_change(plan.change(number));
            numbers.insert(HashedId::of(id), number)?;
        }
        Ok(ChangeNumbers { numbers })
    }

    /// The number of the object's change, counted from 0. `None` where the plan has no change of
    /// the object.
    pub fn get(&self, id: ObjectId<'a>) -> Option<u32>
        ensures { result ≡ number_of self.now id.entry }
    {
        self.numbers.get(&HashedId::of(id)).copied()
    }
}
