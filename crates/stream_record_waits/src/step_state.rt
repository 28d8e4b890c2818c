//! How a recorded script states a step.

/// How a recorded script states a step.
#[derive(Clone, Copy, Debug)]
pub enum StepState {
    /// It began.
    Began,
    /// It did not begin, and waits for a step that failed or did not begin.
    Answered,
    /// It did not begin, and no wait explains it. Its change ends here.
    Skipped,
    /// It is a step after a skipped step in its change, and is left out.
    Absent,
}
