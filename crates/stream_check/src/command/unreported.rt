//! Why a verdict was not reported.

ghost use Rattle.std.specs.Prelude.{◌≡◌};
ghost use Rattle.stream_check.specs.declared.command.unreported.Unreported.TheVariants.{Memory};

use std::alloc::AllocError;
use thiserror::Error;

/// Why a verdict was not reported.
#[derive(Clone, Copy, Debug, Drop, Error, PartialEq, Eq)]
pub enum Unreported {
    /// Memory was refused for the text, or for the name of an unreadable file.
    #[error("out of memory")]
    Memory,
    /// The output could not be written because its reader is gone (`BrokenPipe`).
    #[error("the output could not be written")]
    Gone,
    /// The output could not be written for another reason.
    #[error("the output could not be written")]
    Unwritten,
}

impl From<AllocError> for Unreported {
    ghost from_gives = { λ _ unreported. unreported ≡ Memory };

    fn from(_refused: AllocError) -> Unreported {
        Unreported::Memory
    }
}
