//! The job that the workers of a run share.

use crate::worker::gate::Gate;
use crate::worker::start_gate::StartGate;
use apply_bus::Claims;
use apply_hooks::Registry;
use apply_plan::{Plan, Script};

/// The job that the workers of a run share.
#[derive(Drop)]
pub(crate) struct WorkerJob<'a, G> {
    pub plan: &'a Plan,
    pub script: &'a Script,
    pub registry: &'a Registry,
    pub gate: &'a G,
    /// The claims from which workers draw the numbers of the plan's changes.
    pub claims: &'a Claims,
    /// The gate at which started workers wait.
    pub start_gate: &'a StartGate,
}
