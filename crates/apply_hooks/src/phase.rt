/// When a hook is called.
#[derive(Clone, Copy, Debug, PartialEq, Eq)]
pub enum Phase {
    /// Before a step.
    Pre,
    /// After a step that completed.
    PostDone,
    /// After a step that failed.
    PostFailed,
}
