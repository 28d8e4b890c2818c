//! Finds the first of some values that names an object.
//!
//! Every `Err` means that memory was refused.

ghost use Rattle.std.specs.Prelude.{◌≡◌, ◌∷◌, ◌++◌, [], List, OnOk, Option, length, option_map};
ghost use Rattle.input_validate.specs.FirstNamed.{AreFirst};
ghost use Rattle.input_validate.specs.ObjectNames.{Named, name_view};
ghost use Rattle.input_validate.specs.PlanFindings.{first_named};

use crate::plan::object_name::ObjectName;
use std::alloc::{AllocError, Global};
use std::collections::BTreeMap;

/// For each object, the number of the first value that names it. A value may name no object.
#[derive(Drop)]
pub struct FirstNamed<'a> {
    numbers: BTreeMap<ObjectName<'a>, usize>,
}

impl<'a> FirstNamed<'a> {
    /// Starts with no values.
    pub fn new(alloc: Global) -> FirstNamed<'a>
        ensures { AreFirst result [] }
    {
        FirstNamed {
            numbers: BTreeMap::new(alloc),
        }
    }

    /// Looks up the number of the first value that names the object of `name`. `None` where `name`
    /// is `None`, or where no value names that object.
    pub fn get(&self, name: Option<ObjectName<'a>>) -> Option<usize>
        ensures { (names : List (Option Named)) → AreFirst self.now names → result ≡ first_named names (option_map name_view name.entry) }
    {
        match name {
            Some(name) => self.numbers.get(&name).copied(),
            None => None,
        }
    }

    /// Adds a value and the object that it names. `number` is how many values were added before.
    pub fn push(&mut self, name: Option<ObjectName<'a>>, number: usize) -> Result<(), AllocError>
        ensures { OnOk result ((names : List (Option Named)) → AreFirst self.old names → number ≡ length names
            → AreFirst self.new (names ++ option_map name_view name.entry ∷ [])) }
    {
        let Some(name) = name else {
            return Ok(());
        };
        if self.numbers.contains_key(&name) {
            return Ok(());
        }
        self.numbers.insert(name, number)?;
        Ok(())
    }
}
