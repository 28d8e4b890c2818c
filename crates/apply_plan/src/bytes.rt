//! The greatest size of an input.

/// The greatest size of a plan and of a script, in bytes: 64 MiB.
pub const MAX_BYTES: usize = 67_108_864;
