//! Refreshes that were not reported yet.

ghost use Rattle.std.specs.Prelude.{◌≡◌};
ghost use Rattle.stream_watch.specs.Refreshes.{length_of, none_after, with_begin, with_end};

use crate::clock::gap;

/// How many refreshes ended, and when.
#[derive(Clone, Copy)]
pub struct Refreshes {
    /// How many ended in the whole stream.
    pub ended: u64,
    /// How many ended since they were last reported.
    pub unreported: u64,
    /// When the first of those began that began since then, by line.
    pub first_begin: Option<i64>,
    /// The greatest moment of an end since then.
    pub last_end: i64,
}

impl Refreshes {
    /// No refreshes.
    pub fn new() -> Refreshes
        ensures { result ≡ none_after 0 }
    {
        Refreshes {
            ended: 0,
            unreported: 0,
            first_begin: None,
            last_end: i64::MIN,
        }
    }

    /// The refreshes after one more began.
    pub fn with_begin(self, moment: i64) -> Refreshes
        ensures { result ≡ with_begin moment self }
    {
        Refreshes {
            first_begin: match self.first_begin {
                Some(first) => Some(first),
                None => Some(moment),
            },
            ..self
        }
    }

    /// The refreshes after one more ended.
    pub fn with_end(self, moment: i64) -> Refreshes
        ensures { result ≡ with_end moment self }
    {
        Refreshes {
            ended: self.ended.saturating_add(1),
            unreported: self.unreported.saturating_add(1),
            last_end: self.last_end.max(moment),
            ..self
        }
    }

    /// The refreshes after they were reported.
    pub fn reported(self) -> Refreshes
        ensures { result ≡ none_after self.ended }
    {
        Refreshes {
            ended: self.ended,
            ..Refreshes::new()
        }
    }

    /// How long the unreported ones took together, in microseconds. `None` where none began.
    pub fn length(self) -> Option<u64>
        ensures { result ≡ length_of self }
    {
        match self.first_begin {
            Some(first) => Some(gap(first, self.last_end)),
            None => None,
        }
    }
}
