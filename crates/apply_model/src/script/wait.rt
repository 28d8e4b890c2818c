//! A step that another step waits for.

/// A step of a plan that another step waits for.
#[derive(Clone, Copy, Debug, PartialEq, Eq)]
pub struct Wait {
    /// The number of its change, counted from 0 in the plan's order.
    pub change: u32,
    /// The number of the step in its change, counted from 0.
    pub step: u8,
}
