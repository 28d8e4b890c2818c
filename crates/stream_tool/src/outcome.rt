//! What became of a run of a tool.

ghost use Rattle.std.specs.Prelude.{◌≡◌, None, Some};

use stream_lines::FailedRead;

/// What a tool reports on the bytes that it read.
#[derive(Clone, Copy)]
pub struct Report<A> {
    /// The exit status.
    pub status: u8,
    /// What the tool found out, or why it ended early.
    pub answer: A,
}

/// What became of a run of a tool.
#[derive(Clone, Copy)]
pub struct Outcome<A> {
    /// The exit status.
    pub status: u8,
    /// The answer of the tool. `None` where it did not run: help was asked for, the arguments are
    /// wrong, their file could not be opened, or memory was refused for them.
    pub answer: Option<A>,
    /// Whether the input was read to its end where that was needed. `Err` where a read failed.
    pub rest: Result<(), FailedRead>,
}
