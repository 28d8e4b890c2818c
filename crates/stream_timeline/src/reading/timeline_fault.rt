//! Why a stream has no time line.

ghost use Rattle.std.specs.Prelude.{◌≡◌};
ghost use Rattle.stream_timeline.specs.declared.reading.timeline_fault.TimelineFault.TheVariants.{Memory};

use std::alloc::{AllocError, AllocFailed};
use stream_lines::{FailedRead, LineFault};
use thiserror::Error;

/// Why a stream has no time line.
#[derive(Clone, Copy, Debug, Drop, Error, PartialEq, Eq)]
pub enum TimelineFault {
    /// The line with this number, counted from 1, is longer than 67,108,864 bytes.
    #[error("line {0} is longer than 67108864 bytes")]
    TooLong(u64),
    /// The stream has more than 4,294,967,296 lines.
    #[error("the stream has more than 4294967296 lines")]
    TooManyLines,
    /// The stream has more than 100,000 steps and provisioners.
    #[error("the stream has more than 100000 steps")]
    TooManySteps,
    /// No line of the stream is a message.
    #[error("there is no message in the stream")]
    NoMessage,
    /// A read failed.
    #[error("the stream could not be read")]
    Unread(FailedRead),
    /// Memory was refused.
    #[error("out of memory")]
    Memory,
}

impl From<LineFault> for TimelineFault {
    ghost use Rattle.stream_timeline.specs.Faults.{as_timeline_fault};

    ghost from_gives = { λ given fault. fault ≡ as_timeline_fault given };

    fn from(given: LineFault) -> TimelineFault {
        match given {
            LineFault::Unread(failed) => TimelineFault::Unread(failed),
            LineFault::Memory => TimelineFault::Memory,
        }
    }
}

impl From<AllocError> for TimelineFault {
    ghost from_gives = { λ _ fault. fault ≡ Memory };

    fn from(_refused: AllocError) -> TimelineFault {
        TimelineFault::Memory
    }
}

impl<T: Drop> From<AllocFailed<T>> for TimelineFault {
    ghost from_gives = { λ _ fault. fault ≡ Memory };

    fn from(_refused: AllocFailed<T>) -> TimelineFault {
        TimelineFault::Memory
    }
}
