//! The state of a step in a search.

/// The state of a step in the search for steps that can never begin.
#[derive(Clone, Copy)]
pub enum VisitState {
    /// The search has not come to the step.
    Unseen,
    /// The step is on the path: it waits for the step that is searched now, directly or through
    /// other steps.
    OnPath,
    /// The step could begin.
    Begins,
    /// The step can never begin.
    Unreachable,
}
