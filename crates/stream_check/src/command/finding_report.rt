//! The report on a stream that is not whole.

use crate::command::object::Object;
use crate::rules::open_entry::OpenEntry;
use crate::verdict::finding::Finding;

/// The finding, with what is known about the faulty line.
#[derive(Clone, Copy)]
pub struct FindingReport<'a> {
    pub finding: Finding,
    /// The line at which the check ended.
    pub text: &'a [u8],
    /// Whether the line is the last one, has no line feed, and is no JSON.
    pub is_cut_off: bool,
    /// What the message of the line is about, where the fault reports it.
    pub object: Option<Object<'a>>,
    /// What stands open, or what was planned and never began, where that is the fault.
    pub listed: &'a [OpenEntry<'a>],
    /// How many lines of the input stand before the stream. Their number is added to each line.
    pub lines_before: u64,
    /// How many runs the input has, where its second run is the fault and they were counted.
    pub runs: Option<u64>,
}
