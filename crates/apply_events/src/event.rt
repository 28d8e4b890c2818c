ghost use Rattle.std.specs.Prelude.{◌≡◌};
ghost use Rattle.apply_events.specs.Diagnostics.{is_note};

use crate::what::What;

/// The greatest `at` of an event, in seconds: 10,000 changes of two steps, each of 86,400 seconds.
pub const LATEST: u64 = 1_728_000_000;

/// One event of an apply: something that happens to a step of a change.
#[derive(Clone, Copy, Debug, PartialEq, Eq)]
pub struct Event {
    /// The worker that applies the change.
    pub worker: u8,
    /// The number of the change, counted from 0 in the plan.
    pub change: u32,
    /// The number of the step, counted from 0 in the change.
    pub step: u8,
    /// What happens.
    pub what: What,
    /// When it happens, in seconds after the worker began.
    pub at: u64,
}

impl Event {
    /// Whether the event is an error, a warning or a halt. A stream shows such an event as a
    /// diagnostic (Machine-Readable UI, "Diagnostic"), and every other event as a hook message.
    pub fn is_note(&self) -> bool
        ensures { result ≡ is_note self.now.what }
    {
        matches!(
            self.what,
            What::ErrorNote | What::WarnNote | What::Halted { .. }
        )
    }
}
