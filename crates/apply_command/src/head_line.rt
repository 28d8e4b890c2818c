//! The lines that stand before an apply.

use apply_events::Event;

/// A line that a command prints before its apply.
#[derive(Clone, Copy)]
pub enum HeadLine {
    /// The version.
    Version,
    /// An event of the planning.
    Planning(Event),
    /// A drift, by its number.
    Drift(usize),
    /// A planned change, by its number.
    Planned(u32),
    /// The sums of the plan.
    Summary,
    /// The planned changes of the outputs.
    Outputs,
}
