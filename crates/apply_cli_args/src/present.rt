//! The present as the start of an apply.

ghost use Rattle.std.specs.Prelude.{◌≡◌, ◌*◌, pos};
ghost use Rattle.apply_text.specs.Start.{start_at};

use apply_text::{MomentError, Start};
use jiff::fmt::temporal::DateTimePrinter;
use jiff_core::Timestamp;
use std::time::{Clock, SystemTime, UNIX_EPOCH};

/// Returns the present time of the clock, in whole seconds. `None` if the clock cannot be read, or
/// its time is after 8999.
pub(crate) fn present_start<C: Clock>(clock: &C) -> Option<Start> {
    let now = SystemTime::now(clock).ok()?;
    let since = now.duration_since(UNIX_EPOCH).ok()?;
    start_after(since.as_secs()).ok()
}

/// Returns the start that comes so many seconds after the start of 1970. `Err` after 8999.
fn start_after(seconds: u64) -> Result<Start, MomentError>
    ensures { result ≡ start_at (pos (seconds * 1000000000)) }
{
    match Timestamp::from_nanosecond(i128::from(seconds) * 1_000_000_000) {
        Ok(instant) => start_of_instant(instant),
        Err(_) => Err(MomentError::OutOfRange),
    }
}

/// Returns the start at an instant, which a text carries to `Start::read`. `Err` before 1970 or
/// after 8999.
fn start_of_instant(instant: Timestamp) -> Result<Start, MomentError>
    ensures { result ≡ start_at instant.nanosecond }
{
    let text = DateTimePrinter::new().timestamp_text(instant);
    Start::read(text.as_str())
}
