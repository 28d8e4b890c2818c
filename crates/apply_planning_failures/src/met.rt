//! What a planning met.

use apply_model::Note;

/// What a planning met.
#[derive(Drop)]
pub struct Course {
    /// Copies of the diagnostics of failures, in the order in which they came up.
    pub notes: Vec<Note>,
    /// For each told object, whether it has an event.
    pub begun: Vec<bool>,
    /// How many events there are.
    pub event_count: u32,
}
