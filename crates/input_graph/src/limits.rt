//! Limits of what is read.

/// The most bytes of a graph: 64 MiB.
pub const MAX_BYTES: usize = 67_108_864;
