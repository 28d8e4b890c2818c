//! The totals of a summary.

/// The totals that a summary states. A total is `None` if it is missing or no whole number of 64
/// bits, as a negative one is.
#[derive(Clone, Copy, Debug, PartialEq, Eq)]
pub struct Totals {
    pub added: Option<u64>,
    pub changed: Option<u64>,
    pub removed: Option<u64>,
    pub imported: Option<u64>,
}
