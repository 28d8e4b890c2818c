//! Looks up the objects that a plan knows before it is made.

ghost use Rattle.std.specs.Prelude.{◌≡◌, IfOk, map, option_map, slice_get};
ghost use Rattle.input_validate.specs.ObjectNames.{name_view};
ghost use Rattle.input_validate.specs.Planning.{known_mode};

use crate::against_plan::first_named::FirstNamed;
use crate::against_plan::planned::object_of;
use crate::plan::object_name::ObjectName;
use apply_model::Mode;
use apply_prior::PriorObject;
use std::alloc::{AllocError, Global};
use std::marker::Model;

/// The objects that a plan knows before it is made, with an index by name. Contracts see the list
/// of the objects.
#[derive(Drop)]
pub struct KnownObjects<'a> {
    objects: &'a [PriorObject],
    /// The number of each object.
    numbers: FirstNamed<'a>,
}

impl<'a> Model for KnownObjects<'a> {
    ghost use Rattle.std.specs.Prelude.{List, map};
    ghost use Rattle.apply_model.specs.Plan.ResourceChange.{ResourceChange};
    ghost use Rattle.input_validate.specs.FirstNamed.{AreFirst, of_objects};

    ghost Value = { List ResourceChange };

    ghost view = { λ known. map (λ prior. prior.object) known.objects.now };

    ghost invariant = { λ known. AreFirst known.numbers (of_objects (map (λ prior. prior.object) known.objects.now)) };
}

impl<'a> KnownObjects<'a> {
    /// Indexes these objects. `Err` means that memory was refused.
    pub fn of(alloc: Global, objects: &'a [PriorObject]) -> Result<KnownObjects<'a>, AllocError>
        ensures { IfOk result (λ known. known ≡ map (λ prior. prior.object) objects.now) }
    {
        let mut numbers = FirstNamed::new(alloc);
        for (number, prior) in objects.iter().enumerate() {
            numbers.push(Some(object_of(&prior.object)), number)?;
        }
        Ok(KnownObjects { objects, numbers })
    }

    /// Looks up the mode of an object.
    pub fn mode(&self, name: ObjectName<'a>) -> Option<Mode>
        ensures { result ≡ known_mode self.now (name_view name.entry) }
    {
        match self.numbers.get(Some(name)) {
            Some(number) => numbered_mode(self.objects, number),
            None => None,
        }
    }
}

/// Returns the mode of the object with this number.
fn numbered_mode(objects: &[PriorObject], number: usize) -> Option<Mode>
    ensures { result ≡ option_map (λ prior. prior.object.mode) (slice_get objects.now number) }
{
    match objects.get(number) {
        Some(prior) => Some(prior.object.mode()),
        None => None,
    }
}
