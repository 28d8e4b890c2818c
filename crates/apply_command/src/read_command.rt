//! What a command that plans reads.

use apply_planning::Told;
use apply_prior::{Drift, PlannedOutput};
use apply_run::ReadStated;

/// What a command that plans reads.
#[derive(Drop)]
pub struct ReadCommand {
    /// The plan, the script and the extras of both.
    pub stated: ReadStated,
    /// The drifts of the plan.
    pub drifts: Vec<Drift>,
    /// The planned changes of its outputs.
    pub outputs: Vec<PlannedOutput>,
    /// The objects that the stream tells of while the plan is made.
    pub told: Vec<Told>,
}
