//! The waits of all steps that were found.

/// The waits of all steps, and the steps for which each began too early, by number.
#[derive(Drop)]
pub struct FoundWaits {
    /// The steps that each step waits for.
    pub after: Vec<Vec<usize>>,
    /// The steps for which each step began too early.
    pub early: Vec<Vec<usize>>,
}
