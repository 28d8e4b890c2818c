//! Limits of reading.

/// The greatest length of a line in bytes: 64 MiB.
pub const MAX_BYTES: usize = 67_108_864;
