//! Limits of waits.

/// The most waits of a recorded script.
pub const MAX_WAITS: usize = 1_000_000;
