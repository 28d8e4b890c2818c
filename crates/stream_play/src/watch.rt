//! The time since the first message was read.

use std::time::{Clock, Duration, Instant};

/// The time since the first message was read, by a monotonic clock.
#[derive(Clone, Copy)]
pub enum Watch {
    /// No message was read yet.
    Waiting,
    /// The first message was read at this instant.
    Since(Instant),
    /// The clock could not be read, so no line waits.
    Unknown,
}

impl Watch {
    /// Starts to count now.
    pub fn begun<C: Clock>(clock: &C) -> Watch {
        match Instant::now(clock) {
            Ok(now) => Watch::Since(now),
            Err(_) => Watch::Unknown,
        }
    }

    /// Returns how long to wait until `due` microseconds have passed. It is zero where they have,
    /// and where the clock can't be read.
    pub fn rest<C: Clock>(self, clock: &C, due: u64) -> Duration {
        let Watch::Since(begin) = self else {
            return Duration::ZERO;
        };
        match begin.elapsed(clock) {
            Ok(gone) => Duration::from_micros(due).saturating_sub(gone),
            Err(_) => Duration::ZERO,
        }
    }
}
