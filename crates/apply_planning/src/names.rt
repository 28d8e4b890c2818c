//! The names of told objects.
//!
//! Every `Err` means that memory was refused.

ghost use Rattle.std.specs.Prelude.{◌≡◌, ◌<◌, ◌^◌, IfOk, length};
ghost use Rattle.apply_planning.specs.Names.{first_named, name_waits};

use crate::told::Told;
use apply_model::Wait;
use std::alloc::{AllocError, Global};
use std::collections::BTreeMap;

/// For each name, the number of the first told object that has it. The name goes by that number.
#[derive(Drop)]
pub struct Names<'a> {
    numbers: BTreeMap<&'a str, u32>,
}

impl<'a> Names<'a> {
    ghost use Rattle.apply_planning.specs.NumberOf.{HasNumbers, number_of};

    /// The names of these objects.
    pub(crate) fn new(alloc: Global, told: &'a [Told]) -> Result<Names<'a>, AllocError>
        requires { length told.now < 2 ^ 32 }
        ensures { IfOk result (λ names. HasNumbers told.now names) }
    {
        let mut numbers = BTreeMap::new(alloc);
        // From the last object to the first, so that a name of several objects gets the first.
        for number in (0..told.len()).rev() {
            numbers.insert(told[number].name.as_str(), number as u32)?;
        }
        Ok(Names { numbers })
    }

    /// The number of the name. `None` where no told object has it.
    pub(crate) fn get(&self, name: &str) -> Option<u32>
        ensures { result ≡ number_of self.now name.now }
    {
        self.numbers.get(name).copied()
    }

    /// The names that the object waits for: those that it depends on and told objects have, but for
    /// its own. Each is given as step 0 of its number.
    pub(crate) fn waits_of(&self, alloc: Global, one: &Told) -> Result<Vec<Wait>, AllocError>
        ensures { IfOk result (λ waits. waits.items ≡ name_waits (number_of self.now) one.now) }
    {
        let mut waits = Vec::new(alloc);
        for needed in &one.depends_on {
            let needed = needed.as_str();
            if needed != one.name.as_str() {
                if let Some(change) = self.get(needed) {
                    waits.push(Wait { change, step: 0 })?;
                }
            }
        }
        Ok(waits)
    }
}
