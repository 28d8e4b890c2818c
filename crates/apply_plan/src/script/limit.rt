//! The limits of a step.

/// A limit of a step.
#[derive(Clone, Copy)]
pub enum Limit {
    /// The seconds of the step with all its provisioners.
    Seconds,
    /// The number of its provisioners.
    Provisioners,
    /// The number of outputs of one provisioner.
    Output,
}
