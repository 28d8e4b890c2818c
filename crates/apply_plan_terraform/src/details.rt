//! What only Terraform's form needs of a saved plan.

use crate::plan_notes::PlanNote;
use crate::plan_outputs::PlanOutputs;
use apply_model::ChangeDetails;

/// What only Terraform's form needs of a saved plan.
#[derive(Debug, Drop)]
pub struct Details {
    /// The details of its elements, and the note about the plan.
    pub plan: PlanDetails,
    /// Its outputs.
    pub outputs: PlanOutputs,
}

/// What only Terraform's form needs of a saved plan, except the outputs.
#[derive(Debug, Drop)]
pub struct PlanDetails {
    /// The details of each element of `resource_changes`, in their order. Empty when the plan has
    /// no such array.
    pub changes: Vec<ChangeDetails>,
    /// The note about the whole plan. `None` when the plan is complete.
    pub note: Option<PlanNote>,
}
