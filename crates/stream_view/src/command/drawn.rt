//! What was drawn.

/// What was drawn.
#[derive(Clone, Copy, Debug, PartialEq, Eq)]
pub struct Drawn {
    /// How many runs of Terraform begin in the input: how many of its lines are `version` messages.
    /// `None` where one run was chosen.
    pub runs: Option<u64>,
}
