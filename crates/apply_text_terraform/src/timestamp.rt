//! Timestamps in UTC, with microseconds.

ghost use Rattle.std.specs.Prelude.{◌≡◌, ◌+◌, ◌≤◌, Some};
ghost use Rattle.apply_text.specs.Start.{latest_clock};
ghost use Rattle.apply_text_terraform.specs.UtcTimestamp.{precise_timestamp_text};

use apply_text::Start;
use jiff::Timestamp;
use jiff::civil::DateTime;
use jiff::tz::Offset;
use std::fmt;
use std::marker::Model;

/// A timestamp in UTC, printed with six decimals: `1970-01-01T00:00:00.000000Z`.
///
/// Contracts see its text.
#[derive(Drop)]
pub struct UtcTimestamp {
    civil: DateTime,
}

impl Model for UtcTimestamp {
    ghost use Rattle.std.specs.Prelude.{ℕ, List, ◌++◌, codes};
    ghost use Rattle.jiff.specs.Words.{iso_datetime_text};

    ghost Value = { List ℕ };

    ghost view = { λ timestamp. iso_datetime_text timestamp.civil ++ codes ".000000Z" };
}

impl UtcTimestamp {
    /// The timestamp `clock` seconds after `start`.
    pub fn new(start: Start, clock: u64) -> UtcTimestamp
        requires { clock ≤ latest_clock }
        ensures { result ≡ precise_timestamp_text (start + clock) }
    {
        let seconds = start.seconds() + clock;
        let instant = Timestamp::from_second(seconds as i64).unwrap();
        UtcTimestamp {
            civil: Offset::UTC.to_datetime(instant),
        }
    }
}

impl fmt::Display for UtcTimestamp {
    ghost output = { λ timestamp. Some timestamp };

    fn fmt<W: fmt::Write>(&self, f: &mut fmt::Formatter<W>) -> fmt::Result {
        let civil = self.civil;
        write!(f, "{civil}.000000Z")
    }
}
