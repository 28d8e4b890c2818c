//! Which steps get a row.

ghost use Rattle.std.specs.Prelude.{◌≡◌, ◌<◌, ◌≤◌, ◌==◌, ℕ, IfOk, All, false, get_or, length, true};
ghost use Rattle.std.specs.List.{AllPairs, count_by};
ghost use Rattle.std.specs.List.Sorted.{IsPermutation};
ghost use Rattle.std.specs.Ordering.{is_lt};
ghost use Rattle.stream_timeline.specs.Rows.{AreRanked, AreRowsOf, IsPrintedBefore, candidates_of, comes_before, gets_row, gets_row_within, longest, total_length};
ghost use Rattle.stream_timeline.specs.declared.rows.choosing.Candidate.{Candidate as candidate};

use crate::reading::step::Step;
use crate::reading::time_range::TimeRange;
use std::alloc::{AllocError, Global};
use std::cmp::Ordering;

/// What decides whether a step gets a row. `place` is the index of the step. `marked` says that the
/// step failed or has no end. `length` is in microseconds.
#[derive(Clone, Copy)]
pub struct Candidate {
    pub marked: bool,
    pub length: u64,
    pub place: usize,
}

/// This many rows are given to steps of any length.
const SURE_ROWS: usize = 10;

/// After the first ten rows, a step gets one if it takes at least this fraction of the span.
const SPAN_PARTS: u128 = 200;

/// The steps that get a row, and figures of the steps that get none.
#[derive(Drop)]
pub struct Rows {
    /// The indexes of the steps with a row, in the order in which the steps began. Steps that began
    /// at the same time stand in the order of their lines.
    pub places: Vec<usize>,
    /// How many steps get no row.
    pub left_out: usize,
    /// The greatest length of a step without a row, in microseconds.
    pub longest: u64,
    /// The sum of the lengths of the steps without a row, in microseconds.
    pub total_length: u128,
}

/// Chooses the steps that get a row. Marked steps come first, then longer ones, then those of
/// earlier lines; the first `limit` of this order get a row. After the tenth row, only marked steps
/// and steps of at least a 200th of the span get one.
///
/// Without a limit all steps get a row. `Err` means that memory was refused.
pub fn rows_of(
    alloc: Global,
    time_range: TimeRange,
    steps: &[Step],
    limit: Option<usize>,
) -> Result<Rows, AllocError>
    ensures { IfOk result (λ rows. AreRowsOf time_range steps.now limit rows) }
{
    let ranked = ranked(alloc, time_range, steps)?;
    let count = chosen_count(&ranked, time_range.span(), limit);
    Ok(Rows {
        places: in_order_of_begin(alloc, steps, &ranked[..count])?,
        left_out: ranked.len() - count,
        longest: longest(&ranked[count..]),
        total_length: total_length(&ranked[count..]),
    })
}

/// All steps in the order in which they get rows. `Err` means that memory was refused.
fn ranked(
    alloc: Global,
    time_range: TimeRange,
    steps: &[Step],
) -> Result<Vec<Candidate>, AllocError>
    ensures all { IfOk result (λ ranked. IsPermutation (candidates_of time_range steps.now) ranked.items) }
    ensures ordered { IfOk result (λ ranked. AreRanked ranked.items) }
{
    let mut candidates = candidates_of(alloc, time_range, steps)?;
    candidates.sort_by(|first: &Candidate, second: &Candidate| order_of(*first, *second))?;
    Ok(candidates)
}

/// What decides whether each step gets a row, in the order of the steps. `Err` means that memory
/// was refused.
pub(crate) fn candidates_of(
    alloc: Global,
    time_range: TimeRange,
    steps: &[Step],
) -> Result<Vec<Candidate>, AllocError>
    ensures { IfOk result (λ candidates. candidates.items ≡ candidates_of time_range steps.now) }
{
    let mut candidates = Vec::new(alloc);
    for (place, step) in steps.iter().enumerate() {
        candidates.push(Candidate {
            marked: step.is_marked(),
            length: step.length(time_range),
            place,
        })?;
    }
    Ok(candidates)
}

/// Marked steps come first, then longer ones, then those of earlier lines.
fn order_of(first: Candidate, second: Candidate) -> Ordering
    ensures { is_lt result ≡ comes_before first second }
{
    if first.marked == second.marked {
        second
            .length
            .cmp(&first.length)
            .then(first.place.cmp(&second.place))
    } else if first.marked {
        Ordering::Less
    } else {
        Ordering::Greater
    }
}

/// How many of the ranked steps get a row.
fn chosen_count(ranked: &[Candidate], span: u64, limit: Option<usize>) -> usize
    ensures bound { result ≤ length ranked.now }
    ensures before { (rank : ℕ) (d : candidate) → rank < result
        → gets_row limit span rank (get_or ranked.now rank d) ≡ true }
    ensures after { (d : candidate) → result < length ranked.now
        → gets_row limit span result (get_or ranked.now result d) ≡ false }
{
    let Some(limit) = limit else {
        return ranked.len();
    };
    let mut count = 0;
    'front: while count < ranked.len() && gets_row(ranked[count], count, span, limit) {
        count += 1;
    }
    count
}

/// Whether the step at this rank, counted from 0, gets a row.
fn gets_row(candidate: Candidate, rank: usize, span: u64, limit: usize) -> bool
    ensures { result ≡ gets_row_within limit span rank candidate }
{
    rank < limit
        && (rank < SURE_ROWS
            || candidate.marked
            || span as u128 <= candidate.length as u128 * SPAN_PARTS)
}

/// The indexes of the chosen steps, in the order in which the steps began. `Err` means that memory
/// was refused.
fn in_order_of_begin(
    alloc: Global,
    steps: &[Step],
    chosen: &[Candidate],
) -> Result<Vec<usize>, AllocError>
    requires { All (λ (c : candidate). c.place < length steps.now) chosen.now }
    ensures shown { IfOk result (λ places. (place : ℕ) → count_by (λ shown. shown == place) places.items
        ≡ count_by (λ (c : candidate). c.place == place) chosen.now) }
    ensures ordered { IfOk result (λ places. AllPairs (IsPrintedBefore steps.now) places.items) }
{
    let mut begins = Vec::new(alloc);
    for candidate in chosen {
        begins.push((steps[candidate.place].begin(), candidate.place))?;
    }
    begins.sort()?;
    let mut places = Vec::new(alloc);
    for (_, place) in begins.iter() {
        places.push(*place)?;
    }
    Ok(places)
}

/// The greatest length.
pub(crate) fn longest(candidates: &[Candidate]) -> u64
    ensures { result ≡ longest candidates.now }
{
    let mut longest = 0;
    for candidate in candidates {
        longest = longest.max(candidate.length);
    }
    longest
}

/// The sum of the lengths.
pub(crate) fn total_length(candidates: &[Candidate]) -> u128
    ensures { result ≡ total_length candidates.now }
{
    let mut total_length = 0;
    for candidate in candidates {
        total_length += candidate.length as u128;
    }
    total_length
}
