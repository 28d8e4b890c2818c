//! Limits of a stream, and of what is stored of it.

/// The greatest number of steps and provisioners together.
pub const MAX_STEPS: usize = 100_000;

/// The greatest number of lines.
pub const MAX_LINES: u64 = 4_294_967_296;

/// How many errors are stored, and how many warnings.
pub const MAX_STORED: usize = 20;

/// How many bytes of a long text of a diagnostic are stored, from its front and from its back.
pub const FRONT_BYTES: usize = 8_192;

pub const BACK_BYTES: usize = 12_288;

/// How many lines of the detail of a diagnostic are stored.
pub const DETAIL_LINES: usize = 10;
