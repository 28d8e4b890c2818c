//! Seconds of messages.

ghost use Rattle.std.specs.Prelude.{◌≡◌};
ghost use Rattle.stream_record_lines.specs.Seconds.{nearest_second};

/// Microseconds of a second.
const SECOND: i64 = 1_000_000;

/// The second that is nearest to an instant in microseconds. Half a second counts as one more.
pub fn nearest_second(instant: i64) -> i64
    ensures { result ≡ nearest_second instant }
{
    let whole = instant.div_euclid(SECOND);
    if instant.rem_euclid(SECOND) < SECOND / 2 {
        whole
    } else {
        whole + 1
    }
}
