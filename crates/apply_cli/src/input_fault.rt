//! Why an input could not be read.

ghost use Rattle.std.specs.Prelude.{◌≡◌};
ghost use Rattle.apply_cli.specs.declared.input_fault.InputFault.TheVariants.{Memory};

use std::alloc::{AllocError, AllocFailed};
use thiserror::Error;

/// Why an input could not be read.
#[derive(Clone, Copy, Debug, Drop, Error, PartialEq, Eq)]
pub enum InputFault {
    /// A read failed.
    #[error("the plan could not be read")]
    Read,
    /// Memory was refused.
    #[error("out of memory")]
    Memory,
}

impl From<AllocError> for InputFault {
    ghost from_gives = { λ _ fault. fault ≡ Memory };

    fn from(_refused: AllocError) -> InputFault {
        InputFault::Memory
    }
}

impl<T: Drop> From<AllocFailed<T>> for InputFault {
    ghost from_gives = { λ _ fault. fault ≡ Memory };

    fn from(_refused: AllocFailed<T>) -> InputFault {
        InputFault::Memory
    }
}
