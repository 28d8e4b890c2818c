//! Objects that Terraform knows before it plans.

use apply_model::{Change, Text};

/// An object that Terraform refreshes or reads while it plans: one of the prior state (JSON Output
/// Format, "State Representation"), or one that has vanished since.
#[derive(Debug, Drop)]
pub struct PriorObject {
    /// The object, as a change without steps. `prior_id` is its id, `None` of one that has vanished.
    pub object: Change,
    /// The names of resources that it depends on, without instance keys.
    pub depends_on: Vec<Text>,
    /// The id that it had before it was refreshed.
    pub id_before: Option<Text>,
}
