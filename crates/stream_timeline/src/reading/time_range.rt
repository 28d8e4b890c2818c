//! The first and the last time of a stream.

ghost use Rattle.std.specs.Prelude.{◌≡◌, Some};
ghost use Rattle.std.specs.Int.{int_gap};
ghost use Rattle.stream_timeline.specs.Intervals.{span_of};
ghost use Rattle.stream_timeline.specs.TimeRange.{with_time};

/// The least and the greatest timestamp of the messages of a stream, in microseconds since the
/// start of 1970. In real streams timestamps go back by some milliseconds, because workers write
/// concurrently.
#[derive(Clone, Copy, Debug, PartialEq, Eq)]
pub struct TimeRange {
    pub first: i64,
    pub last: i64,
}

impl TimeRange {
    /// The length of the range, in microseconds.
    pub fn span(self) -> u64
        ensures { result ≡ span_of self }
    {
        gap(self.first, self.last)
    }

    /// How long after the first time `time` comes, in microseconds. It is 0 for an earlier time.
    pub fn offset(self, time: i64) -> u64
        ensures { result ≡ int_gap self.first time }
    {
        gap(self.first, time)
    }
}

/// How long after `from` the time `to` comes, in microseconds. It is 0 if `to` comes earlier.
pub(crate) fn gap(from: i64, to: i64) -> u64
    ensures { result ≡ int_gap from to }
{
    if to < from { 0 } else { to.abs_diff(from) }
}

/// The time range with one more timestamp.
pub(crate) fn with_time(time_range: Option<TimeRange>, time: i64) -> TimeRange
    ensures { result ≡ with_time time time_range }
{
    match time_range {
        Some(time_range) => TimeRange {
            first: time_range.first.min(time),
            last: time_range.last.max(time),
        },
        None => TimeRange {
            first: time,
            last: time,
        },
    }
}
