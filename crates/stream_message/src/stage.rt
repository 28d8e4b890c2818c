//! The stages of a step, a refresh or a provisioner.

/// A stage of a step, a refresh or a provisioner.
#[derive(Clone, Copy)]
pub enum Stage {
    Start,
    Progress,
    Complete,
    Errored,
}
