//! How the waits of a recorded script are chosen.

/// How the waits of a recorded script are chosen.
#[derive(Clone, Copy, Debug)]
pub struct Choices {
    /// With a graph: whether steps also wait so that they begin in the order of the stream.
    pub begins: bool,
    /// The number of lanes in which the script is to run.
    pub lanes: u8,
    /// Without a graph: whether a wait may be guessed. It may where each error belongs to a step
    /// and the stream is not cut off.
    pub guesses: bool,
}
