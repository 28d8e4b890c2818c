//! The begins and ends of intervals.

ghost use Rattle.std.specs.Prelude.{IfOk};
ghost use Rattle.std.specs.List.Sorted.{IsNonDecreasingBy, IsPermutation};
ghost use Rattle.stream_timeline.specs.Edges.{edges_of};

use crate::numbers::interval::Interval;
use std::alloc::{AllocError, Global};

/// The begin or the end of the interval of a step. `place` is the index of the step; `time` is in
/// microseconds since the start of the stream.
#[derive(Clone, Copy)]
pub struct Edge {
    pub time: u64,
    pub place: usize,
    pub is_end: bool,
}

/// The begins and ends of all intervals, ordered by time. `Err` means that memory was refused.
pub fn edges_of(alloc: Global, intervals: &[Interval]) -> Result<Vec<Edge>, AllocError>
    ensures all { IfOk result (λ edges. IsPermutation (edges_of intervals.now) edges.items) }
    ensures ordered { IfOk result (λ edges. IsNonDecreasingBy (λ edge. edge.time) edges.items) }
{
    let mut edges = Vec::new(alloc);
    for interval in intervals {
        edges.push(Edge {
            time: interval.begin,
            place: interval.place,
            is_end: false,
        })?;
        edges.push(Edge {
            time: interval.end,
            place: interval.place,
            is_end: true,
        })?;
    }
    edges.sort_by_key(|edge: &Edge| edge.time)?;
    Ok(edges)
}
