//! Why the findings were not written.

ghost use Rattle.std.specs.Prelude.{◌≡◌};
ghost use Rattle.input_validate_cli.specs.Causes.{as_validate_fault};
ghost use Rattle.input_validate_cli.specs.declared.command.validate_fault.ValidateFault.TheVariants.{Memory};

use std::alloc::AllocError;
use std::io;
use stream_lines::FailedRead;
use stream_tool::WriteFault;
use thiserror::Error;

/// Why the findings of a plan and a script were not written.
#[derive(Clone, Copy, Debug, Drop, Error)]
pub enum ValidateFault {
    /// A read of the plan failed. Nothing was written.
    #[error("the plan could not be read")]
    Plan(FailedRead),
    /// The script's file could not be opened. Nothing was written.
    #[error("the script file could not be opened")]
    Unopened(io::Error),
    /// A read of the script's file failed. Nothing was written.
    #[error("the script file could not be read")]
    Script(FailedRead),
    /// Memory was refused, if only for the name of a script's file that could not be opened or
    /// read. Nothing was written.
    #[error("out of memory")]
    Memory,
    /// A write or a flush failed, because the reader of the output is gone.
    #[error("the output could not be written")]
    Gone,
    /// A write or a flush failed for another reason.
    #[error("the output could not be written")]
    Unwritten,
}

impl From<AllocError> for ValidateFault {
    ghost from_gives = { λ _ fault. fault ≡ Memory };

    fn from(_refused: AllocError) -> ValidateFault {
        ValidateFault::Memory
    }
}

impl From<WriteFault> for ValidateFault {
    ghost from_gives = { λ failed fault. fault ≡ as_validate_fault failed };

    fn from(failed: WriteFault) -> ValidateFault {
        match failed {
            WriteFault::Gone => ValidateFault::Gone,
            WriteFault::Unwritten => ValidateFault::Unwritten,
        }
    }
}
