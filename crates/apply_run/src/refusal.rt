//! Why a plan and a script were not applied.

use apply_plan::{PlanError, ScriptError};
use apply_writer::Fault;
use thiserror::Error;

/// Why a plan was not applied, or not to the end. The variants are tested in this order. The first
/// four mean that nothing was written.
#[derive(Clone, Copy, Debug, Drop, Error, PartialEq, Eq)]
pub enum Refusal {
    /// The bytes are not a plan.
    #[error("{0}")]
    Plan(PlanError),
    /// The script does not fit the plan.
    #[error("{0}")]
    Script(ScriptError),
    /// Only with workers: the script states dependencies.
    #[error("the script says what steps wait for, which takes --parallelism")]
    Waits,
    /// Not 1 to 8 workers, a capacity that is not 1 to 1,024, or not 1 to 64 lanes.
    #[error("the sizes are out of range")]
    Size,
    /// The run failed.
    #[error("{0}")]
    Fault(Fault),
}
