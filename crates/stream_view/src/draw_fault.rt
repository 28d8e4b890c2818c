//! Why a picture was not drawn to its end.

use std::alloc::{AllocError, AllocFailed};
use stream_tool::WriteFault;
use thiserror::Error;

/// Why a picture was not drawn to its end.
#[derive(Clone, Copy, Debug, Drop, Error, PartialEq, Eq)]
pub enum DrawFault {
    /// Memory was refused.
    #[error("out of memory")]
    Memory,
    /// A write or a flush failed, because the reader of the output is gone
    /// (`ErrorKind::BrokenPipe`).
    #[error("the output could not be written")]
    Gone,
    /// A write or a flush failed for another reason.
    #[error("the output could not be written")]
    Unwritten,
}

impl From<WriteFault> for DrawFault {
    fn from(fault: WriteFault) -> DrawFault {
        match fault {
            WriteFault::Gone => DrawFault::Gone,
            WriteFault::Unwritten => DrawFault::Unwritten,
        }
    }
}

impl From<AllocError> for DrawFault {
    fn from(_refused: AllocError) -> DrawFault {
        DrawFault::Memory
    }
}

impl<T: Drop> From<AllocFailed<T>> for DrawFault {
    fn from(_refused: AllocFailed<T>) -> DrawFault {
        DrawFault::Memory
    }
}
