//! Laws of the figures. Each function does nothing; its contract is the law.

ghost use Rattle.std.specs.Prelude.{◌≡◌, ◌≤◌, ◌*◌, ℕ, List, All, Some};
ghost use Rattle.std.specs.List.{sum_by};
ghost use Rattle.stream_timeline.specs.Intervals.{intervals_of, span_of};
ghost use Rattle.stream_timeline.specs.Numbers.{alone_below, busy_in, peak_in, stretch_length, work_of};
ghost use Rattle.stream_timeline.specs.Steps.{StepRead};
ghost use Rattle.stream_timeline.specs.Stretches.{IsOrdered, stretches_of};
ghost use Rattle.stream_timeline.specs.TimelineRead.{timeline_of};
ghost use Rattle.stream_timeline.specs.declared.numbers.interval.Interval.{Interval as interval};
ghost use Rattle.stream_timeline.specs.declared.numbers.stretch.Stretch.{Stretch as stretch};
ghost use Rattle.stream_timeline.specs.declared.reading.time_range.TimeRange.{TimeRange as time_range};

/// No step ends before it begins. So the other laws hold for the intervals of any steps.
pub fn no_step_ends_before_it_begins()
    ensures { (range : time_range) (steps : List StepRead) → All IsOrdered (intervals_of range steps) }
{}

/// The work is the sum over all stretches of the number of steps times the length.
pub fn work_is_the_number_under_way_times_the_length()
    ensures { (intervals : List interval) → All IsOrdered intervals
        → work_of intervals ≡ sum_by (λ (s : stretch). s.number * stretch_length s) (stretches_of intervals) }
{}

/// The busy time is at most the work.
pub fn busy_is_at_most_the_work()
    ensures { (intervals : List interval) → All IsOrdered intervals
        → busy_in (stretches_of intervals) ≤ work_of intervals }
{}

/// The busy time is at most the span of the stream.
pub fn busy_is_at_most_the_span()
    ensures { (lines : List (List ℕ)) (range : time_range) → (timeline_of lines).time_range ≡ Some range
        → busy_in (stretches_of (intervals_of range (timeline_of lines).steps)) ≤ span_of range }
{}

/// The work is at most the peak times the busy time.
pub fn work_is_at_most_the_peak_times_busy()
    ensures { (intervals : List interval) → All IsOrdered intervals
        → work_of intervals ≤ peak_in (stretches_of intervals) * busy_in (stretches_of intervals) }
{}

/// The times in which single steps run alone are together at most the busy time.
pub fn alone_is_at_most_busy()
    ensures { (intervals : List interval) (count : ℕ)
        → alone_below count (stretches_of intervals) ≤ busy_in (stretches_of intervals) }
{}
