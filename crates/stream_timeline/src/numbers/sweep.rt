//! The stretches of a stream, computed in one sweep over begins and ends.

ghost use Rattle.std.specs.Prelude.{◌≡◌, All, IfOk};
ghost use Rattle.stream_timeline.specs.Stretches.{IsOrdered, IsSmallInterval, stretches_of};

use crate::numbers::edge::edges_of;
use crate::numbers::interval::Interval;
use crate::numbers::running::Sweep;
use crate::numbers::stretch::Stretch;
use std::alloc::{AllocError, Global};

/// The stretches between neighbouring begins and ends of the intervals, in order. `Err` means that
/// memory was refused.
pub fn stretches_of(alloc: Global, intervals: &[Interval]) -> Result<Vec<Stretch>, AllocError>
    requires ordered { All IsOrdered intervals.now }
    requires small { All IsSmallInterval intervals.now }
    ensures { IfOk result (λ stretches. stretches.items ≡ stretches_of intervals.now) }
{
    let edges = edges_of(alloc, intervals)?;
    let mut sweep = Sweep::new(alloc);
    for edge in &edges {
        sweep.take(*edge)?;
    }
    Ok(sweep.stretches)
}
