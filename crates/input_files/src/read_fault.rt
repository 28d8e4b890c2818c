//! Why an input was not read.

use std::alloc::{AllocError, AllocFailed};
use stream_lines::FailedRead;

/// Why an input was not read.
#[derive(Clone, Copy, Debug, Drop)]
pub enum ReadFault {
    /// A read failed.
    Unread(FailedRead),
    /// Memory was refused.
    Memory,
}

impl From<FailedRead> for ReadFault {
    fn from(failed: FailedRead) -> ReadFault {
        ReadFault::Unread(failed)
    }
}

impl From<AllocError> for ReadFault {
    fn from(_refused: AllocError) -> ReadFault {
        ReadFault::Memory
    }
}

impl<T: Drop> From<AllocFailed<T>> for ReadFault {
    fn from(_refused: AllocFailed<T>) -> ReadFault {
        ReadFault::Memory
    }
}
