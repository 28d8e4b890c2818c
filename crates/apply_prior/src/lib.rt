//! Reads what a plan's JSON says of the time before its apply: prior objects, drift, planned outputs.
#![tactic(auto)]

mod actions;
mod drift;
mod drifts;
mod element;
mod ids;
mod index;
mod last_ids;
mod lookups;
mod names;
mod objects;
mod outputs;
mod placed;
mod planned_output;
mod prior;
mod prior_object;
mod reading;
mod shape;

pub use drift::Drift;
pub use planned_output::{OutputAction, PlannedOutput};
pub use prior::Prior;
pub use prior_object::PriorObject;
pub use reading::read_prior;
