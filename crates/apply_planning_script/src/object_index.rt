//! Values by the objects that they are about.
//!
//! Every `Err` means that memory was refused.

ghost use Rattle.std.specs.Prelude.{◌≡◌, IfOk};
ghost use Rattle.std.specs.Option.{option_copied};
ghost use Rattle.apply_planning_script.specs.Objects.{ObjectName, number_in, object_of};
ghost use Rattle.apply_planning_script.specs.Rules.{object_of_drift};
ghost use Rattle.apply_planning_script.specs.ObjectIndex.{name_of_id, number_of};

use apply_prior::{Drift, PriorObject};
use apply_resolve::ObjectId;
use std::alloc::{AllocError, Global};
use std::collections::BTreeMap;

/// A value that is about an object.
pub trait AboutObject {
    /// The object, as contracts see it.
    ghost about: { Self → ObjectName };

    /// The object.
    fn id(&self) -> ObjectId<'_>
        ensures { name_of_id result ≡ about self.now };
}

impl AboutObject for PriorObject {
    ghost about = { λ prior. object_of prior.object };

    fn id(&self) -> ObjectId<'_> {
        ObjectId::of_change(&self.object)
    }
}

impl AboutObject for Drift {
    ghost about = { object_of_drift };

    fn id(&self) -> ObjectId<'_> {
        ObjectId::of_change(&self.change)
    }
}

/// The numbers of values, by the objects that they are about.
#[derive(Drop)]
pub struct ObjectIndex<'a> {
    numbers: BTreeMap<ObjectId<'a>, usize>,
}

impl<'a> ObjectIndex<'a> {
    /// The numbers of these values. Of two values about one object the first counts.
    pub fn of<T: AboutObject>(alloc: Global, values: &'a [T]) -> Result<Self, AllocError>
        ensures { IfOk result (λ index. (id : _) → number_of index id ≡ number_in T.about values.now (name_of_id id)) }
    {
        let mut numbers = BTreeMap::new(alloc);
        // From the last value to the first, so that the first one of an object stays.
        for number in (0..values.len()).rev() {
            numbers.insert(values[number].id(), number)?;
        }
        Ok(ObjectIndex { numbers })
    }

    /// The number of the first value that is about the object. `None` where no value is.
    pub fn get(&self, id: ObjectId<'a>) -> Option<usize>
        ensures { result ≡ number_of self.now id.entry }
    {
        self.numbers.get(&id).copied()
    }
}
