//! A saved plan.

ghost use Rattle.std.specs.Prelude.{◌≡◌, ◌<◌, ◌≤◌, length, Some, slice_get, vec_len};
ghost use Rattle.apply_model.specs.Plan.SavedPlan.{max_changes};

pub mod action;
pub mod address;
pub mod change;
pub mod change_parts;
pub mod key;
pub mod mode;
pub mod step_kind;

use crate::plan::change::Change;
use crate::text::Text;
use std::marker::Model;

/// The greatest number of changes in a plan.
pub const MAX_CHANGES: usize = 10_000;

/// A saved plan (JSON Output Format, "Plan Representation"): the version of Terraform that made it,
/// and its changes, at most 10,000.
#[derive(Debug, Drop)]
pub struct Plan {
    version: Text,
    changes: Vec<Change>,
}

impl Model for Plan {
    ghost use Rattle.std.specs.Prelude.{◌≤◌, vec_len};
    ghost use Rattle.apply_model.specs.Plan.SavedPlan.{SavedPlan, max_changes};

    ghost Value = { SavedPlan };

    ghost view = { λ p. record { version = p.version; changes = p.changes.items } };

    ghost invariant = { λ p. vec_len p.changes ≤ max_changes };
}

impl Plan {
    /// A plan with these changes in this order, made by that version of Terraform.
    pub fn new(version: Text, changes: Vec<Change>) -> Plan
        requires { vec_len changes ≤ max_changes }
        ensures { result ≡ record { version = version; changes = changes.items } }
    {
        Plan { version, changes }
    }

    /// The number of changes, 10,000 at most.
    pub fn len(&self) -> u32
        ensures len { result ≡ length self.now.changes }
        ensures few { length self.now.changes ≤ max_changes }
    {
        self.changes.len() as u32
    }

    /// The change of that number, counted from 0.
    pub fn change(&self, number: u32) -> &Change
        requires { number < length self.now.changes }
        ensures { Some result.now ≡ slice_get self.now.changes number }
    {
        &self.changes[number as usize]
    }

    /// The version of Terraform that made the plan. It is `0.0.0` where the plan states none.
    pub fn version(&self) -> &str
        ensures { result.now ≡ self.now.version }
    {
        self.version.as_str()
    }
}
