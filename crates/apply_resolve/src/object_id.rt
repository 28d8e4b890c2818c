//! The object of a change.

ghost use Rattle.std.specs.Prelude.{◌≡◌};
ghost use Rattle.std.specs.Option.{option_copied};

use apply_model::Change;

/// An object: its address, and the key of a deposed object. No two changes of a plan have the same
/// object.
#[derive(Clone, Copy, PartialEq, Eq, PartialOrd, Ord)]
pub struct ObjectId<'a> {
    /// The absolute address.
    pub address: &'a str,
    /// The key of a deposed object. `None` for the current object at the address.
    pub deposed: Option<&'a str>,
}

impl<'a> ObjectId<'a> {
    /// The object of the change.
    pub fn of_change(change: &'a Change) -> ObjectId<'a>
        ensures address { result.address.now ≡ change.now.address }
        ensures deposed { option_copied result.deposed ≡ change.now.deposed }
    {
        ObjectId {
            address: change.address(),
            deposed: change.deposed(),
        }
    }
}
