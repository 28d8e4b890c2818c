//! Exit statuses.

/// The arguments are refused, or the file or the stream could not be read.
pub const REFUSED: u8 = 2;

/// Memory was refused, or the output could not be written.
pub const FAILED: u8 = 3;
