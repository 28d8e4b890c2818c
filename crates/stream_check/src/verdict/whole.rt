//! The verdict on a whole stream.

use crate::messages::totals::Totals;

/// The verdict on a stream in which nothing is missing and nothing is wrong.
#[derive(Clone, Copy, Debug, Drop, PartialEq, Eq)]
pub struct Whole {
    /// The completed creates, updates and deletes. For the stream of a plan, the planned ones.
    pub totals: Totals,
    /// Whether the stream has a diagnostic with severity `error`.
    pub has_errors: bool,
    /// How many lines the stream has.
    pub lines: u64,
    /// Whether the stream is that of a plan.
    pub is_plan: bool,
    /// How many lines were ignored, where `find` asks for that.
    pub passed: Option<u64>,
}
