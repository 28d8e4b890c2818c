//! Why bytes could not be read.

ghost use Rattle.std.specs.Prelude.{◌≡◌};
ghost use Rattle.apply_cli.specs.declared.read_fault.ReadFault.TheVariants.{Memory};

use std::alloc::{AllocError, AllocFailed};
use std::io;

/// Why bytes could not be read.
#[derive(Clone, Copy)]
pub(crate) enum ReadFault {
    /// A read failed, with that error.
    Failed(io::Error),
    /// Memory was refused.
    Memory,
}

impl From<AllocError> for ReadFault {
    ghost from_gives = { λ _ fault. fault ≡ Memory };

    fn from(_refused: AllocError) -> ReadFault {
        ReadFault::Memory
    }
}

impl<T: Drop> From<AllocFailed<T>> for ReadFault {
    ghost from_gives = { λ _ fault. fault ≡ Memory };

    fn from(_refused: AllocFailed<T>) -> ReadFault {
        ReadFault::Memory
    }
}
