//! Places on an axis.

ghost use Rattle.std.specs.Prelude.{◌≡◌, ◌≤◌, ◌*◌, ◌<◌, ◌^◌};
ghost use Rattle.stream_timeline.specs.Bars.{place_above, place_on};

/// The place of a time on an axis that is `width` places wide and `span` microseconds long.
/// `offset` is the time in microseconds since the start of the stream. The place is rounded down; a
/// span of 0 counts as 1.
pub fn place_on(width: u64, span: u64, offset: u64) -> u128
    ensures { result ≡ place_on width span offset }
{
    offset as u128 * width as u128 / span.max(1) as u128
}

/// As `place_on`, but rounded up.
pub(crate) fn place_above(width: u64, span: u64, offset: u64) -> u128
    requires { width < 2 ^ 63 }
    ensures { result ≡ place_above width span offset }
{
    let span = span.max(1) as u128;
    (offset as u128 * width as u128 + (span - 1)) / span
}
