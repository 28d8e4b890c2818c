//! What a plan's JSON says of the time before its apply.

use crate::drift::Drift;
use crate::planned_output::PlannedOutput;
use crate::prior_object::PriorObject;

/// What a plan's JSON says of the time before its apply.
#[derive(Debug, Drop)]
pub struct Prior {
    /// The objects of the prior state in their order, then those that have vanished.
    pub objects: Vec<PriorObject>,
    /// The drifts, in their order.
    pub drifts: Vec<Drift>,
    /// The planned changes of outputs, in the byte order of their names.
    pub outputs: Vec<PlannedOutput>,
}
