/// The answer of a hook.
#[derive(Clone, Copy, Debug, PartialEq, Eq)]
pub enum Verdict {
    /// The hook does not halt the step.
    Continue,
    /// The hook halts the change: none of its further steps is applied.
    Halt,
}
