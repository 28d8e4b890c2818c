//! Limits of reading.

pub use stream_lines::MAX_BYTES;

/// The greatest number of lines.
pub const MAX_LINES: u64 = 4_294_967_296;
