//! The halves of cells that a bar covers.

ghost use Rattle.std.specs.Prelude.{◌≡◌, ◌<◌, ◌≤◌, ◌*◌, ◌^◌, ◌+◌, ◌&&◌, nat_le, nat_lt};
ghost use Rattle.stream_timeline.specs.Bars.{end_half, first_half};

use crate::bars::scale::{place_above, place_on};

/// The halves of cells that a bar covers: from `first`, up to but not including `end`.
#[derive(Clone, Copy, Debug, PartialEq, Eq)]
pub struct Halves {
    pub first: u128,
    pub end: u128,
}

/// The halves that the bar of a step covers in a row of `cells` cells. `span`, `begin` and `end`
/// are microseconds; `begin` and `end` count from the start of the stream.
///
/// A bar covers at least one half. A bar that would begin beyond the last half covers the last
/// half.
pub fn halves_of(cells: u32, span: u64, begin: u64, end: u64) -> Halves
    requires { 1 ≤ cells }
    ensures first { result.first ≡ first_half cells span begin }
    ensures end { result.end ≡ end_half cells span begin end }
{
    let halves = cells as u64 * 2;
    let first = place_on(halves, span, begin).min(halves as u128 - 1);
    Halves {
        first,
        end: place_above(halves, span, end).max(first + 1),
    }
}

impl Halves {
    /// Whether the bar covers the half with this number, counted from 0.
    pub fn covers(self, half: u32) -> bool
        ensures { result ≡ (nat_le self.first half && nat_lt half self.end) }
    {
        self.first <= half as u128 && (half as u128) < self.end
    }
}
