//! A line of a stream, and what a read of the next line returns.

use std::alloc::Global;

/// What the reader returned for the next line.
#[derive(Clone, Copy, Debug, PartialEq, Eq)]
pub enum LineEnd {
    /// A line. Each line but the last ends with a line feed; the last line may have one.
    Line { has_feed: bool },
    /// A line of more than 67,108,864 bytes. Only a front of the line was read.
    TooLong,
    /// The stream is at its end.
    End,
}

/// A line without its line feed.
#[derive(Drop)]
pub struct Line {
    pub text: Vec<u8>,
    /// Whether a line feed ends the line. The last line of a stream may have none.
    pub has_feed: bool,
}

impl Line {
    /// An empty line.
    pub fn new(alloc: Global) -> Line {
        Line {
            text: Vec::new(alloc),
            has_feed: false,
        }
    }
}
