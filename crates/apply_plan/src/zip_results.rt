//! Joins two results of allocations.

ghost use Rattle.std.specs.Prelude.{◌≡◌, IfOk, Ok};

use std::alloc::AllocError;

/// Both values, or `Err` if memory was refused for one of them.
///
/// Joined results share one early return, so a proof has one case for them all.
#[inline(always)]
pub fn zip_results<A: Drop, B: Drop>(
    one: Result<A, AllocError>,
    other: Result<B, AllocError>,
) -> Result<(A, B), AllocError>
    ensures { IfOk result (λ made. (one ≡ Ok made.0) × (other ≡ Ok made.1)) }
{
    match one {
        Ok(one) => match other {
            Ok(other) => Ok((one, other)),
            Err(refused) => Err(refused),
        },
        Err(refused) => Err(refused),
    }
}
