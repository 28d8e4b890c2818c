//! Why there is no verdict that a stream is whole.

ghost use Rattle.std.specs.Prelude.{◌≡◌};
ghost use Rattle.stream_check.specs.Reading.{IsNoAnswer, unselected};
ghost use Rattle.stream_check.specs.declared.verdict.read_fault.ReadFault.TheVariants.{Memory};

use crate::rules::fault::Fault;
use crate::verdict::finding::Finding;
use std::alloc::AllocError;
use stream_lines::{FailedRead, LineFault};
use stream_runs::{MissingRun, RunFault};
use thiserror::Error;

/// Why there is no verdict that a stream is whole.
#[derive(Clone, Copy, Debug, Drop, Error, PartialEq, Eq)]
pub enum ReadFault {
    /// The stream is not whole. The fault is never `Fault::Memory`.
    #[error("{0}")]
    Found(Finding),
    /// The stream has more than 4,294,967,296 lines.
    #[error("the stream has more than 4294967296 lines")]
    TooMany,
    /// The run that was chosen is not there.
    #[error("{0}")]
    NoRun(MissingRun),
    /// A read failed.
    #[error("the stream could not be read")]
    Unread(FailedRead),
    /// The file for the messages could not be made.
    #[error("the file for the messages could not be created")]
    Uncreated(FailedCreation),
    /// The messages could not be written into their file.
    #[error("the messages could not be written")]
    Unwritten,
    /// Memory was refused.
    #[error("out of memory")]
    Memory,
}

/// A file could not be made.
#[derive(Clone, Copy, Debug, PartialEq, Eq)]
pub struct FailedCreation {
    /// The system's number of the error, where the error has one.
    pub number: Option<i32>,
}

impl From<LineFault> for ReadFault {
    ghost from_gives = { λ _ fault. IsNoAnswer fault };

    fn from(given: LineFault) -> ReadFault {
        match given {
            LineFault::Unread(failed) => ReadFault::Unread(failed),
            LineFault::Memory => ReadFault::Memory,
        }
    }
}

impl From<AllocError> for ReadFault {
    ghost from_gives = { λ _ fault. fault ≡ Memory };

    fn from(_refused: AllocError) -> ReadFault {
        ReadFault::Memory
    }
}

impl From<RunFault> for ReadFault {
    ghost from_gives = { λ given fault. fault ≡ unselected given };

    fn from(given: RunFault) -> ReadFault {
        match given {
            RunFault::Missing(missing) => ReadFault::NoRun(missing),
            RunFault::TooLong(line) => ReadFault::Found(Finding {
                line,
                fault: Fault::TooLong,
                passed: None,
            }),
            RunFault::TooMany => ReadFault::TooMany,
            RunFault::Unread(failed) => ReadFault::Unread(failed),
            RunFault::Memory => ReadFault::Memory,
        }
    }
}
