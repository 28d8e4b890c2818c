//! Drift: how an object has changed outside of Terraform.

use apply_model::{Change, ChangeDetails};

/// How an object has changed outside of Terraform (JSON Output Format, "Plan Representation",
/// `resource_drift`).
#[derive(Debug, Drop)]
pub struct Drift {
    /// The object and what happened to it, as a change. `prior_id` is the id before.
    pub change: Change,
    /// Its details: where it was moved from, if it was moved.
    pub details: ChangeDetails,
}
