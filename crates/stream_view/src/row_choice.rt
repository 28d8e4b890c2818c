//! Which steps get a row, and in which order.

/// The order in which steps are chosen for a row, and in which their rows stand.
#[derive(Clone, Copy, Debug, PartialEq, Eq)]
pub enum Sort {
    /// Marked steps are chosen first, then the longest. The rows stand in the order in which the
    /// steps began.
    Begin,
    /// The longest steps are chosen, and their rows stand first.
    Length,
}

/// Which steps get a row, and in which order.
#[derive(Clone, Copy, Debug, PartialEq, Eq)]
pub struct RowChoice {
    pub sort: Sort,
    /// The greatest number of rows. `None`: each step gets one.
    pub limit: Option<usize>,
}
