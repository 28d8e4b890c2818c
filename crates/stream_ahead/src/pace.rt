//! Waits for an input.

use std::time::Duration;

/// Waits for an input, at most for some time.
pub trait Pace {
    /// Waits until a read of the input would return at once, but at most so long. Returns whether a
    /// read would return at once now.
    fn wait(&self, at_most: Duration) -> bool;
}
