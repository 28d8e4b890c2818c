//! What became of a check.

use crate::command::unreported::Unreported;
use crate::verdict::read_fault::ReadFault;
use crate::verdict::whole::Whole;

/// What became of a check.
#[derive(Clone, Copy)]
pub struct Checked {
    /// The verdict on the stream, or why there is none.
    pub verdict: Result<Whole, ReadFault>,
    /// Whether the verdict was reported, or why not.
    pub reported: Result<(), Unreported>,
}
