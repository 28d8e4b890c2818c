//! Lists of waits before any wait is found.

ghost use Rattle.std.specs.Prelude.{◌≡◌, IfOk};
ghost use Rattle.stream_record_waits.specs.Recorded.{no_waits};
ghost use Rattle.stream_record_waits.specs.Steps.{lists_in};

use std::alloc::{AllocError, Global};

/// So many lists of no wait. `Err` where memory is refused.
pub(crate) fn no_waits(alloc: Global, count: usize) -> Result<Vec<Vec<usize>>, AllocError>
    ensures { IfOk result (λ waits. lists_in waits.items ≡ no_waits count) }
{
    let mut waits = Vec::with_capacity(alloc, count)?;
    for _step in 0..count {
        waits.push(Vec::new(alloc))?;
    }
    Ok(waits)
}
