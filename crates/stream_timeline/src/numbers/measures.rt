//! The figures of a stream.

ghost use Rattle.std.specs.Prelude.{◌≡◌, ◌<◌, ◌+◌, ◌^◌, ℕ, IfOk, codes, get_or, if◌then◌else◌, length};
ghost use Rattle.std.specs.List.{sum_by};
ghost use Rattle.stream_timeline.specs.Intervals.{intervals_of};
ghost use Rattle.stream_timeline.specs.Numbers.{IsNumbersOf, alone_in, busy_in, completed_of, is_alone, peak_in, stretch_length, work_of};

use crate::numbers::interval::{Interval, intervals_of};
use crate::numbers::stretch::Stretch;
use crate::numbers::sweep::stretches_of;
use crate::reading::step::Step;
use crate::reading::time_range::TimeRange;
use std::alloc::{AllocError, Global};

/// The figures of a stream. Times are in microseconds. A step that failed and has no end is left
/// out, because nobody knows when it failed.
#[derive(Drop)]
pub struct Numbers {
    /// For how long at least one step ran.
    pub busy: u64,
    /// The greatest number of steps that ran at once.
    pub peak: usize,
    /// The sum of the lengths of all steps.
    pub work: u128,
    /// For each step, how long it was the only one that ran.
    pub alone: Vec<u64>,
    /// How many creates, updates and deletes completed.
    pub created: usize,
    pub updated: usize,
    pub deleted: usize,
    /// The stretches between neighbouring begins and ends, in order.
    pub stretches: Vec<Stretch>,
}

/// Computes the figures of the steps of a stream. `Err` means that memory was refused.
pub fn numbers_of(
    alloc: Global,
    time_range: TimeRange,
    steps: &[Step],
) -> Result<Numbers, AllocError>
    ensures { IfOk result (λ numbers. IsNumbersOf time_range steps.now numbers) }
{
    let intervals = intervals_of(alloc, time_range, steps)?;
    let stretches = stretches_of(alloc, &intervals)?;
    Ok(Numbers {
        busy: busy_in(&stretches),
        peak: peak_in(&stretches),
        work: work_of(&intervals),
        alone: alone_in(alloc, steps.len(), &stretches)?,
        created: completed_of("create", steps),
        updated: completed_of("update", steps),
        deleted: completed_of("delete", steps),
        stretches,
    })
}

/// For how long at least one step ran.
fn busy_in(stretches: &[Stretch]) -> u64
    requires { sum_by stretch_length stretches.now < 2 ^ 64 }
    ensures { result ≡ busy_in stretches.now }
{
    let mut busy = 0;
    for stretch in stretches {
        if stretch.number > 0 {
            busy += stretch.length();
        }
    }
    busy
}

/// The greatest number of steps that ran at once.
fn peak_in(stretches: &[Stretch]) -> usize
    ensures { result ≡ peak_in stretches.now }
{
    let mut peak = 0;
    for stretch in stretches {
        peak = peak.max(stretch.number);
    }
    peak
}

/// The sum of the lengths of the intervals.
fn work_of(intervals: &[Interval]) -> u128
    ensures { result ≡ work_of intervals.now }
{
    let mut work = 0;
    for interval in intervals {
        work += interval.length() as u128;
    }
    work
}

/// For each of `count` steps, how long it was the only one that ran. `Err` means that memory was
/// refused.
fn alone_in(alloc: Global, count: usize, stretches: &[Stretch]) -> Result<Vec<u64>, AllocError>
    requires { sum_by stretch_length stretches.now < 2 ^ 64 }
    ensures len { IfOk result (λ alone. length alone.items ≡ count) }
    ensures value { IfOk result (λ alone. (place : ℕ) → place < count → get_or alone.items place 0
        ≡ alone_in place stretches.now) }
{
    let mut alone = vec![in alloc; 0; count]?;
    for stretch in stretches {
        add_alone(&mut alone, *stretch);
    }
    Ok(alone)
}

/// Where only one step runs in the stretch, adds the length of the stretch to the figure of that
/// step.
fn add_alone(alone: &mut [u64], stretch: Stretch)
    requires { (place : ℕ) → get_or alone.old place 0 + stretch_length stretch < 2 ^ 64 }
    ensures { (place : ℕ) → place < length alone.old
        → get_or alone.new place 0 ≡ get_or alone.old place 0 + (if is_alone place stretch
        then stretch_length stretch else 0) }
{
    if let Some(place) = stretch.alone {
        if place < alone.len() {
            alone[place] += stretch.length();
        }
    }
}

/// How many steps with this action completed.
fn completed_of(action: &str, steps: &[Step]) -> usize
    ensures { result ≡ completed_of action.now steps.now }
{
    let mut count = 0;
    for step in steps {
        if step.is_completed(action) {
            count += 1;
        }
    }
    count
}
