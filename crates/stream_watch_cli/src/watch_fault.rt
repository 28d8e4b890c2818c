//! Why a stream was not watched to its end.

use std::alloc::{AllocError, AllocFailed};
use stream_check::Unjudged;
use stream_lines::{FailedRead, LineFault};
use stream_tool::WriteFault;
use thiserror::Error;

/// Why a stream was not watched to its end.
#[derive(Clone, Copy, Debug, Drop, Error, PartialEq, Eq)]
pub enum WatchFault {
    /// The stream has more than 4,294,967,296 lines.
    #[error("the stream has more than 4294967296 lines")]
    TooMany,
    /// A read failed.
    #[error("the stream could not be read")]
    Unread(FailedRead),
    /// Memory was refused.
    #[error("out of memory")]
    Memory,
    /// A write or a flush failed because the reader of the output is gone (`BrokenPipe`).
    #[error("the output could not be written")]
    Gone,
    /// A write or a flush failed for another reason.
    #[error("the output could not be written")]
    Unwritten,
}

impl From<LineFault> for WatchFault {
    fn from(given: LineFault) -> WatchFault {
        match given {
            LineFault::Unread(failed) => WatchFault::Unread(failed),
            LineFault::Memory => WatchFault::Memory,
        }
    }
}

impl From<Unjudged> for WatchFault {
    fn from(given: Unjudged) -> WatchFault {
        match given {
            Unjudged::TooMany => WatchFault::TooMany,
            Unjudged::Memory => WatchFault::Memory,
        }
    }
}

impl From<WriteFault> for WatchFault {
    fn from(given: WriteFault) -> WatchFault {
        match given {
            WriteFault::Gone => WatchFault::Gone,
            WriteFault::Unwritten => WatchFault::Unwritten,
        }
    }
}

impl From<AllocError> for WatchFault {
    fn from(_refused: AllocError) -> WatchFault {
        WatchFault::Memory
    }
}

impl<T: Drop> From<AllocFailed<T>> for WatchFault {
    fn from(_refused: AllocFailed<T>) -> WatchFault {
        WatchFault::Memory
    }
}
