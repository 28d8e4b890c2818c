//! How a stream is read.

/// How a stream is read, and which streams are accepted.
#[derive(Clone, Copy)]
pub struct Mode {
    /// The lines are those of a log. Messages are located in them, and lines without a message are
    /// ignored.
    pub find: bool,
    /// The stream of a plan is accepted too. It ends with the summary of the plan.
    pub plan: bool,
    /// How many lines of the input stand before the stream. Reports count them too.
    pub lines_before: u64,
}

impl Mode {
    /// Each line is a message, and only the stream of an apply is accepted.
    pub const PLAIN: Mode = Mode {
        find: false,
        plan: false,
        lines_before: 0,
    };
}
