//! Which steps get a row, if the rows stand in the order of their lengths.

ghost use Rattle.std.specs.Prelude.{◌≡◌, IfOk, map};
ghost use Rattle.std.specs.List.Sorted.{IsPermutation};
ghost use Rattle.std.specs.Ordering.{is_lt};
ghost use Rattle.stream_timeline.specs.RowsByLength.{AreLongestFirst, AreRowsByLength, is_longer, row_count};
ghost use Rattle.stream_timeline.specs.Rows.{candidates_of};
ghost use Rattle.stream_timeline.specs.declared.rows.choosing.Candidate.{Candidate as candidate};

use crate::reading::step::Step;
use crate::reading::time_range::TimeRange;
use crate::rows::choosing::{Candidate, Rows, candidates_of, longest, total_length};
use std::alloc::{AllocError, Global};
use std::cmp::Ordering;

/// Chooses the steps that get a row: the `limit` longest ones. The rows stand in the order of their
/// lengths, the longest first. Steps of the same length stand in the order of their lines. A step
/// that failed or has no end is chosen by its length too.
///
/// Without a limit all steps get a row. `Err` means that memory was refused.
pub fn rows_by_length(
    alloc: Global,
    time_range: TimeRange,
    steps: &[Step],
    limit: Option<usize>,
) -> Result<Rows, AllocError>
    ensures { IfOk result (λ rows. AreRowsByLength time_range steps.now limit rows) }
{
    let ranked = longest_first(alloc, time_range, steps)?;
    let count = row_count(limit, ranked.len());
    Ok(Rows {
        places: places_of(alloc, &ranked[..count])?,
        left_out: ranked.len() - count,
        longest: longest(&ranked[count..]),
        total_length: total_length(&ranked[count..]),
    })
}

/// All steps, the longest first. `Err` means that memory was refused.
fn longest_first(
    alloc: Global,
    time_range: TimeRange,
    steps: &[Step],
) -> Result<Vec<Candidate>, AllocError>
    ensures all { IfOk result (λ ranked. IsPermutation (candidates_of time_range steps.now) ranked.items) }
    ensures ordered { IfOk result (λ ranked. AreLongestFirst ranked.items) }
{
    let mut candidates = candidates_of(alloc, time_range, steps)?;
    candidates.sort_by(|first: &Candidate, second: &Candidate| order_by_length(*first, *second))?;
    Ok(candidates)
}

/// Longer steps come first, then those of earlier lines.
fn order_by_length(first: Candidate, second: Candidate) -> Ordering
    ensures { is_lt result ≡ is_longer first second }
{
    second
        .length
        .cmp(&first.length)
        .then(first.place.cmp(&second.place))
}

/// How many of `count` steps get a row.
fn row_count(limit: Option<usize>, count: usize) -> usize
    ensures { result ≡ row_count limit count }
{
    match limit {
        Some(limit) => limit.min(count),
        None => count,
    }
}

/// The indexes of these steps, in the same order. `Err` means that memory was refused.
fn places_of(alloc: Global, chosen: &[Candidate]) -> Result<Vec<usize>, AllocError>
    ensures { IfOk result (λ places. places.items ≡ map (λ (c : candidate). c.place) chosen.now) }
{
    let mut places = Vec::new(alloc);
    for candidate in chosen {
        places.push(candidate.place)?;
    }
    Ok(places)
}
