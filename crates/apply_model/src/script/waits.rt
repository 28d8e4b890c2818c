//! The steps that a step waits for.

ghost use Rattle.std.specs.Prelude.{◌≡◌, ◌<◌, ◌≤◌, length, Some, slice_get, vec_len};
ghost use Rattle.apply_model.specs.Script.Limits.{max_waits};

use crate::script::wait::Wait;
use std::marker::Model;

/// The greatest number of items in all `after` lists of a script together.
pub const MAX_WAITS: usize = 1_000_000;

/// The steps that a script names in one `after` list, at most 1,000,000. Contracts see a list.
#[derive(Debug, Drop)]
pub struct Waits {
    waits: Vec<Wait>,
}

impl Model for Waits {
    ghost use Rattle.std.specs.Prelude.{List, ◌≤◌, vec_len};
    ghost use Rattle.apply_model.specs.declared.script.wait.Wait.{Wait};
    ghost use Rattle.apply_model.specs.Script.Limits.{max_waits};

    ghost Value = { List Wait };

    ghost view = { λ w. w.waits.items };

    ghost invariant = { λ w. vec_len w.waits ≤ max_waits };
}

impl Waits {
    /// These steps, in this order. A repeated step has no further effect.
    pub fn new(waits: Vec<Wait>) -> Waits
        requires { vec_len waits ≤ max_waits }
        ensures { result ≡ waits.items }
    {
        Waits { waits }
    }

    /// The number of steps, at most 1,000,000.
    pub fn len(&self) -> u32
        ensures len { result ≡ length self.now }
        ensures few { length self.now ≤ max_waits }
    {
        self.waits.len() as u32
    }

    /// The step of that number, counted from 0.
    pub fn get(&self, number: u32) -> Wait
        requires { number < length self.now }
        ensures { Some result ≡ slice_get self.now number }
    {
        self.waits[number as usize]
    }
}
