/// The answer of all hooks together.
#[derive(Clone, Copy, Debug, PartialEq, Eq)]
pub enum Asked {
    /// No hook halts.
    Go,
    /// The number of the first hook that halts, counted from 0.
    HaltedBy(u8),
}
