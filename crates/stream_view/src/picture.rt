//! What a picture shows.

ghost use Rattle.std.specs.Prelude.{◌≡◌, IfOk, get_or};
ghost use Rattle.std.specs.Int.{int_gap};
ghost use Rattle.stream_timeline.specs.Intervals.{span_of, until_of};
ghost use Rattle.stream_timeline.specs.Numbers.{IsNumbersOf};
ghost use Rattle.stream_view.specs.RowChoices.{AreRowsIn};
ghost use Rattle.stream_view.specs.Viewed.{time_range_of};

use crate::row_choice::{RowChoice, Sort};
use std::alloc::{AllocError, Global};
use stream_timeline::{
    Numbers, Rows, Step, TimeRange, Timeline, numbers_of, rows_by_length, rows_of,
};

/// What a picture shows: the time line of a stream, its figures, and which steps get a row.
#[derive(Drop)]
pub struct Picture<'a> {
    pub timeline: &'a Timeline,
    /// How many lines of the input stand before those of the time line.
    pub lines_before: u64,
    pub time_range: TimeRange,
    pub numbers: Numbers,
    pub rows: Rows,
}

impl<'a> Picture<'a> {
    /// The picture of a time line with the rows that are asked for. `lines_before` lines of the
    /// input stand before its own. Without a message, the time range begins and ends at 0. `Err`
    /// means that memory was refused.
    pub fn of(
        alloc: Global,
        timeline: &'a Timeline,
        lines_before: u64,
        choice: RowChoice,
    ) -> Result<Picture<'a>, AllocError>
        ensures timeline { IfOk result (λ picture. picture.timeline.now ≡ timeline.now) }
        ensures lines_before { IfOk result (λ picture. picture.lines_before ≡ lines_before) }
        ensures time_range { IfOk result (λ picture. picture.time_range ≡ time_range_of timeline.now) }
        ensures numbers { IfOk result (λ picture. IsNumbersOf (time_range_of timeline.now) timeline.now.steps picture.numbers) }
        ensures rows { IfOk result (λ picture. AreRowsIn choice.sort (time_range_of timeline.now) timeline.now.steps choice.limit picture.rows) }
    {
        let time_range = timeline
            .time_range()
            .unwrap_or(TimeRange { first: 0, last: 0 });
        Ok(Picture {
            timeline,
            lines_before,
            time_range,
            numbers: numbers_of(alloc, time_range, timeline.steps())?,
            rows: chosen_rows(alloc, time_range, timeline.steps(), choice)?,
        })
    }

    /// The time from the first to the last timestamp, in microseconds.
    pub fn span(&self) -> u64
        ensures { result ≡ span_of self.now.time_range }
    {
        self.time_range.span()
    }

    /// When a step begins, in microseconds since the start of the stream.
    pub fn begin_of(&self, step: &Step) -> u64
        ensures { result ≡ int_gap self.now.time_range.first step.now.begin }
    {
        self.time_range.offset(step.begin())
    }

    /// When a step ends, in microseconds since the start of the stream. A step without an end runs
    /// to the end of the stream.
    pub fn until_of(&self, step: &Step) -> u64
        ensures { result ≡ int_gap self.now.time_range.first (until_of self.now.time_range step.now) }
    {
        self.time_range.offset(step.until(self.time_range))
    }

    /// How long the step at index `place` was the only one that ran, in microseconds.
    pub fn alone_of(&self, place: usize) -> u64
        ensures { result ≡ get_or self.now.numbers.alone.items place 0 }
    {
        match self.numbers.alone.get(place) {
            Some(alone) => *alone,
            None => 0,
        }
    }
}

/// The rows of these steps, chosen and ordered as asked for. `Err` means that memory was refused.
fn chosen_rows(
    alloc: Global,
    time_range: TimeRange,
    steps: &[Step],
    choice: RowChoice,
) -> Result<Rows, AllocError>
    ensures { IfOk result (λ rows. AreRowsIn choice.sort time_range steps.now choice.limit rows) }
{
    match choice.sort {
        Sort::Begin => rows_of(alloc, time_range, steps, choice.limit),
        Sort::Length => rows_by_length(alloc, time_range, steps, choice.limit),
    }
}
