//! Whose turn it is to take what is left of the diagnostics.

ghost use Rattle.std.specs.Prelude.{◌≡◌};
ghost use Rattle.stream_record_outcomes.specs.Assignment.{is_in_turn};

use crate::taker::Taker;

/// The steps whose turn it is to take what is left of the diagnostics.
#[derive(Clone, Copy)]
pub enum Turn {
    Failed,
    OpenReads,
    OtherOpen,
}

impl Turn {
    /// Whether it is the turn of the step.
    pub fn has(self, taker: &Taker<'_>) -> bool
        ensures { result ≡ is_in_turn self taker.now }
    {
        match self {
            Turn::Failed => taker.has_failed,
            Turn::OpenReads => taker.is_open_read(),
            Turn::OtherOpen => taker.is_other_open(),
        }
    }
}
