//! The options of a run with workers.

ghost use Rattle.std.specs.Prelude.{◌↔◌, IsTrue};
ghost use Rattle.apply_run.specs.Options.{IsInRange};

use apply_bus::{MAX_CAPACITY, MAX_WORKERS};
use apply_text::{Operation, Start};

/// How workers apply a plan.
#[derive(Clone, Copy, Debug, PartialEq, Eq)]
pub struct Options {
    /// The number of workers, 1 to 8.
    pub workers: u8,
    /// How many events may wait to be written, 1 to 1,024.
    pub capacity: u16,
    /// When the first steps start.
    pub start: Start,
    /// What the apply is for: the summary names it.
    pub operation: Operation,
}

impl Options {
    /// Whether there are 1 to 8 workers and the capacity is 1 to 1,024.
    pub fn in_range(&self) -> bool
        ensures { IsTrue result ↔ IsInRange self.now }
    {
        1 <= self.workers
            && self.workers <= MAX_WORKERS
            && 1 <= self.capacity
            && self.capacity <= MAX_CAPACITY
    }
}
