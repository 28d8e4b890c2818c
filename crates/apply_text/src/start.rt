//! The time at which an apply starts.

ghost use Rattle.std.specs.Prelude.{◌≡◌, ◌<◌};
ghost use Rattle.apply_text.specs.Start.{end_of_starts, start_at, start_of};

use jiff::Timestamp;
use std::marker::Model;
use thiserror::Error;

/// The first second that is too late for a start: 9000-01-01T00:00:00Z, in nanoseconds since the
/// start of 1970.
const END_OF_STARTS: i128 = 221_845_392_000_000_000_000;

/// Why a text gives no start of an apply.
#[derive(Clone, Copy, Debug, Drop, Error, PartialEq, Eq)]
pub enum MomentError {
    /// The text is no instant (RFC 3339, section 5.6).
    #[error("the moment is not a moment")]
    NotAMoment,
    /// The instant lies before 1970, or after 8999.
    #[error("the moment is out of range")]
    OutOfRange,
}

/// The time at which an apply starts: a whole second from 1970-01-01T00:00:00Z to
/// 8999-12-31T23:59:59Z.
///
/// Contracts see the seconds since 1970-01-01T00:00:00Z.
#[derive(Clone, Copy, Debug, PartialEq, Eq)]
pub struct Start {
    seconds: u64,
}

impl Model for Start {
    ghost use Rattle.std.specs.Prelude.{ℕ, ◌<◌};
    ghost use Rattle.apply_text.specs.Start.{end_of_starts};

    ghost Value = { ℕ };

    ghost view = { λ start. start.seconds };

    ghost invariant = { λ start. start.seconds < end_of_starts };

    ghost inverse = { λ seconds. record { seconds = seconds } };
}

impl Start {
    /// Reads an instant (RFC 3339, section 5.6, and what else `jiff` accepts). Fractions of a
    /// second are cut off.
    ///
    /// `Err` with `NotAMoment` when the text is no instant, and with `OutOfRange` when the instant
    /// lies before 1970 or after 8999.
    pub fn read(text: &str) -> Result<Start, MomentError>
        ensures { result ≡ start_of text.now }
    {
        match text.parse::<Timestamp>() {
            Ok(instant) => Start::at(instant.as_nanosecond()),
            Err(_) => Err(MomentError::NotAMoment),
        }
    }

    /// Checks an instant, given in nanoseconds since the start of 1970. `Err` with `OutOfRange`
    /// when it lies before 1970 or after 8999.
    fn at(nanoseconds: i128) -> Result<Start, MomentError>
        ensures { result ≡ start_at nanoseconds }
    {
        if nanoseconds < 0 || nanoseconds >= END_OF_STARTS {
            return Err(MomentError::OutOfRange);
        }
        Ok(Start {
            seconds: (nanoseconds / 1_000_000_000) as u64,
        })
    }

    /// 1970-01-01T00:00:00Z.
    pub fn zero() -> Start
        ensures { result ≡ 0 }
    {
        Start { seconds: 0 }
    }

    /// The seconds since 1970-01-01T00:00:00Z.
    pub fn seconds(self) -> u64
        ensures value { result ≡ self }
        ensures in_range { result < end_of_starts }
    {
        self.seconds
    }
}
