//! Gates, with which a test can hold back steps.

/// A gate that each worker passes before each step, before the hooks are asked. No clause says
/// anything about it. A test can hold steps back until others have been applied.
pub trait Gate: Sync {
    /// Called by the worker before it starts a step. `change` and `step` count from 0.
    fn pass(&self, worker: u8, change: u32, step: u8);
}

/// A gate that holds back no step.
#[derive(Clone, Copy, Debug)]
pub struct NoGate;

impl Gate for NoGate {
    fn pass(&self, _worker: u8, _change: u32, _step: u8) {}
}
