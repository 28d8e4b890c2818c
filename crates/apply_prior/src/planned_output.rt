//! Planned changes of outputs.

use apply_model::Text;

/// What a plan does to an output.
#[derive(Clone, Copy, Debug, PartialEq, Eq)]
pub enum OutputAction {
    /// Nothing.
    NoOp,
    /// The output is new.
    Create,
    /// The output is read.
    Read,
    /// Its value changes.
    Update,
    /// The output goes.
    Delete,
    /// It is deleted and made anew, in either order.
    Replace,
}

/// A planned change of an output (JSON Output Format, "Plan Representation", `output_changes`).
#[derive(Debug, Drop)]
pub struct PlannedOutput {
    /// The name of the output.
    pub name: Text,
    /// What the plan does to it.
    pub action: OutputAction,
    /// Whether its value is sensitive after the apply.
    pub sensitive: bool,
}
