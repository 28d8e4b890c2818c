//! Why no line was read.

ghost use Rattle.std.specs.Prelude.{◌≡◌};
ghost use Rattle.stream_lines.specs.declared.line_fault.LineFault.TheVariants.{Memory};

use crate::failed_read::FailedRead;
use std::alloc::AllocError;
use thiserror::Error;

/// Why no line was read.
#[derive(Clone, Copy, Debug, Drop, Error, PartialEq, Eq)]
pub enum LineFault {
    /// A read failed.
    #[error("the stream could not be read")]
    Unread(FailedRead),
    /// Memory was refused.
    #[error("out of memory")]
    Memory,
}

impl From<AllocError> for LineFault {
    ghost from_gives = { λ _ fault. fault ≡ Memory };

    fn from(_refused: AllocError) -> LineFault {
        LineFault::Memory
    }
}
