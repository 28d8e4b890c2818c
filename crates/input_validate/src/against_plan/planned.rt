//! Looks up the changes of a plan by the names that a script uses.

ghost use Rattle.std.specs.Prelude.{◌≡◌, IfOk, None};
ghost use Rattle.std.specs.Option.{option_copied};
ghost use Rattle.input_validate.specs.AgainstPlan.{change_named, has_address};
ghost use Rattle.input_validate.specs.ObjectNames.{name_view};

use crate::against_plan::first_named::FirstNamed;
use crate::plan::object_name::ObjectName;
use apply_plan::{Change, Plan};
use std::alloc::{AllocError, Global};
use std::marker::Model;

/// The changes of a plan, with an index by object and an index by address. Contracts see the list
/// of the changes.
#[derive(Drop)]
pub struct Planned<'a> {
    plan: &'a Plan,
    /// The number of the change of each object.
    objects: FirstNamed<'a>,
    /// The number of the first change at each address.
    addresses: FirstNamed<'a>,
}

impl<'a> Model for Planned<'a> {
    ghost use Rattle.std.specs.Prelude.{◌≤◌, List, length};
    ghost use Rattle.apply_model.specs.Plan.ResourceChange.{ResourceChange};
    ghost use Rattle.apply_model.specs.Plan.SavedPlan.{max_changes};
    ghost use Rattle.input_validate.specs.FirstNamed.{AreFirst, at_addresses, of_objects};

    ghost Value = { List ResourceChange };

    ghost view = { λ planned. planned.plan.now.changes };

    ghost invariant = { λ planned. (length planned.plan.now.changes ≤ max_changes)
        × AreFirst planned.objects (of_objects planned.plan.now.changes) × AreFirst planned.addresses (at_addresses planned.plan.now.changes) };
}

impl<'a> Planned<'a> {
    /// Indexes the changes of a plan. `Err` means that memory was refused.
    pub fn of(alloc: Global, plan: &'a Plan) -> Result<Planned<'a>, AllocError>
        ensures { IfOk result (λ planned. planned ≡ plan.now.changes) }
    {
        let mut objects = FirstNamed::new(alloc);
        let mut addresses = FirstNamed::new(alloc);
        for number in 0..plan.len() {
            let change = plan.change(number);
            objects.push(Some(object_of(change)), number as usize)?;
            addresses.push(Some(at_address(change.address())), number as usize)?;
        }
        Ok(Planned {
            plan,
            objects,
            addresses,
        })
    }

    /// Looks up the change of an object.
    pub fn change(&self, name: ObjectName<'a>) -> Option<&'a Change>
        ensures { option_copied result ≡ change_named self.now (name_view name.entry) }
    {
        match self.objects.get(Some(name)) {
            Some(number) => Some(self.plan.change(number as u32)),
            None => None,
        }
    }

    /// Returns whether the plan changes an object at this address, deposed or not.
    pub fn has_address(&self, address: &'a str) -> bool
        ensures { result ≡ has_address self.now address.now }
    {
        self.addresses.get(Some(at_address(address))).is_some()
    }
}

/// Names the object that a change is of.
pub fn object_of(change: &Change) -> ObjectName<'_>
    ensures { name_view result ≡ (change.now.address, change.now.deposed) }
{
    ObjectName {
        address: change.address(),
        deposed: change.deposed(),
    }
}

/// Names the object at an address that is not deposed.
fn at_address(address: &str) -> ObjectName<'_>
    ensures { name_view result ≡ (address.now, None) }
{
    ObjectName {
        address,
        deposed: None,
    }
}
