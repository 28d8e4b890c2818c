//! Why a stream was not played to its end.

ghost use Rattle.std.specs.Prelude.{◌≡◌};
ghost use Rattle.stream_play.specs.Played.{as_play_fault, unselected, write_fault};
ghost use Rattle.stream_play.specs.declared.play_fault.PlayFault.TheVariants.{Memory};

use std::alloc::{AllocError, AllocFailed};
use stream_lines::{FailedRead, LineFault};
use stream_runs::{MissingRun, RunFault};
use stream_tool::WriteFault;
use thiserror::Error;

/// Why a stream was not played to its end.
#[derive(Clone, Copy, Debug, Drop, Error, PartialEq, Eq)]
pub enum PlayFault {
    /// This line, counted from 1, has more than 67,108,864 bytes.
    #[error("line {0} is longer than 67108864 bytes")]
    TooLong(u64),
    /// The stream has more than 18,446,744,073,709,551,614 lines.
    #[error("the stream has more than 18446744073709551614 lines")]
    TooMany,
    /// The run that was chosen is not there.
    #[error("{0}")]
    NoRun(MissingRun),
    /// A read failed.
    #[error("the stream could not be read")]
    Unread(FailedRead),
    /// Memory was refused.
    #[error("out of memory")]
    Memory,
    /// A write or a flush failed because the reader of the output is gone (`BrokenPipe`).
    #[error("the output could not be written")]
    Gone,
    /// A write or a flush failed for another reason.
    #[error("the output could not be written")]
    Unwritten,
}

impl From<LineFault> for PlayFault {
    ghost from_gives = { λ given fault. fault ≡ as_play_fault given };

    fn from(given: LineFault) -> PlayFault {
        match given {
            LineFault::Unread(failed) => PlayFault::Unread(failed),
            LineFault::Memory => PlayFault::Memory,
        }
    }
}

impl From<RunFault> for PlayFault {
    ghost from_gives = { λ given fault. fault ≡ unselected given };

    fn from(given: RunFault) -> PlayFault {
        match given {
            RunFault::Missing(missing) => PlayFault::NoRun(missing),
            RunFault::TooLong(line) => PlayFault::TooLong(line),
            RunFault::TooMany => PlayFault::TooMany,
            RunFault::Unread(failed) => PlayFault::Unread(failed),
            RunFault::Memory => PlayFault::Memory,
        }
    }
}

impl From<WriteFault> for PlayFault {
    ghost from_gives = { λ given fault. fault ≡ write_fault given };

    fn from(given: WriteFault) -> PlayFault {
        match given {
            WriteFault::Gone => PlayFault::Gone,
            WriteFault::Unwritten => PlayFault::Unwritten,
        }
    }
}

impl From<AllocError> for PlayFault {
    ghost from_gives = { λ _ fault. fault ≡ Memory };

    fn from(_refused: AllocError) -> PlayFault {
        PlayFault::Memory
    }
}

impl<T: Drop> From<AllocFailed<T>> for PlayFault {
    ghost from_gives = { λ _ fault. fault ≡ Memory };

    fn from(_refused: AllocFailed<T>) -> PlayFault {
        PlayFault::Memory
    }
}
