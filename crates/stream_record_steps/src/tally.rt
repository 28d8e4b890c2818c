//! Lines that have something in common.

ghost use Rattle.std.specs.Prelude.{◌≡◌};
ghost use Rattle.stream_record_steps.specs.Tallies.{no_lines, with_line};

/// Lines that have something in common: the first, and how many.
#[derive(Clone, Copy, Debug, PartialEq, Eq)]
pub struct Tally {
    pub first: Option<u64>,
    /// The number of lines, `u64::MAX` at most.
    pub count: u64,
}

/// No lines.
pub fn no_lines() -> Tally
    ensures { result ≡ no_lines }
{
    Tally {
        first: None,
        count: 0,
    }
}

/// The tally with one line more.
pub fn with_line(tally: Tally, line: u64) -> Tally
    ensures { result ≡ with_line line tally }
{
    Tally {
        first: tally.first.or(Some(line)),
        count: tally.count.saturating_add(1),
    }
}
