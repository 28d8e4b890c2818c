//! A stretch of time in which the same steps run.

ghost use Rattle.std.specs.Prelude.{◌≡◌};
ghost use Rattle.stream_timeline.specs.Numbers.{stretch_length};

/// A stretch between two neighbouring begins or ends of steps, in microseconds since the start of
/// the stream. No step begins or ends within it.
#[derive(Clone, Copy, Debug, PartialEq, Eq)]
pub struct Stretch {
    pub begin: u64,
    pub end: u64,
    /// How many steps run.
    pub number: usize,
    /// The index of the step that runs, if it is the only one.
    pub alone: Option<usize>,
}

impl Stretch {
    /// The length of the stretch, in microseconds.
    pub fn length(self) -> u64
        ensures { result ≡ stretch_length self }
    {
        self.end.saturating_sub(self.begin)
    }
}
