//! Whether a value is an array.

/// Whether a value is an array, absent, or something else.
#[derive(Clone, Copy)]
pub enum ArrayPresence {
    /// The value is missing or `null`.
    Absent,
    /// An array.
    List,
    /// Any other value.
    Other,
}
