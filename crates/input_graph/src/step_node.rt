//! What a graph has to know of a step.

use apply_model::Text;

/// A step of a plan, as the plan's graph knows it.
#[derive(Debug, Drop)]
pub struct StepNode {
    /// The name of the node of the step.
    pub name: Text,
    /// Whether the step before it in the plan is of the same change. It waits for that step.
    pub follows: bool,
}
