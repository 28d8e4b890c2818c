//! The interval in which a step ran.

ghost use Rattle.std.specs.Prelude.{◌≡◌, All, IfOk};
ghost use Rattle.stream_timeline.specs.Intervals.{interval_of, intervals_of};
ghost use Rattle.stream_timeline.specs.Numbers.{interval_length};
ghost use Rattle.stream_timeline.specs.Stretches.{IsSmallInterval};

use crate::reading::step::Step;
use crate::reading::time_range::TimeRange;
use std::alloc::{AllocError, Global};

/// The interval in which a step ran, in microseconds since the start of the stream. `place` is the
/// index of the step.
#[derive(Clone, Copy, Debug, PartialEq, Eq)]
pub struct Interval {
    pub place: usize,
    pub begin: u64,
    pub end: u64,
}

impl Interval {
    /// The interval of the step at index `place`. A step without an end runs to the end of the
    /// stream.
    pub fn of(time_range: TimeRange, place: usize, step: &Step) -> Interval
        ensures value { result ≡ interval_of time_range place step.now }
        ensures small { IsSmallInterval result }
    {
        Interval {
            place,
            begin: time_range.offset(step.begin()),
            end: time_range.offset(step.until(time_range)),
        }
    }

    /// The length of the interval, in microseconds.
    pub fn length(self) -> u64
        ensures { result ≡ interval_length self }
    {
        self.end.saturating_sub(self.begin)
    }
}

/// The intervals of the steps that are counted. A step that failed and has no end is left out,
/// because nobody knows when it failed. `Err` means that memory was refused.
pub(crate) fn intervals_of(
    alloc: Global,
    time_range: TimeRange,
    steps: &[Step],
) -> Result<Vec<Interval>, AllocError>
    ensures value { IfOk result (λ intervals. intervals.items ≡ intervals_of time_range steps.now) }
    ensures small { IfOk result (λ intervals. All IsSmallInterval intervals.items) }
{
    let mut intervals = Vec::new(alloc);
    for (place, step) in steps.iter().enumerate() {
        if step.is_counted() {
            intervals.push(Interval::of(time_range, place, step))?;
        }
    }
    Ok(intervals)
}
