//! Why a JSON text was refused.

ghost use Rattle.std.specs.Prelude.{◌≡◌};
ghost use Rattle.apply_json.specs.declared.read_fault.ReadFault.TheVariants.{Memory, NotJson};

use json::Invalid;
use std::alloc::{AllocError, AllocFailed};

/// Why a JSON text was refused.
#[derive(Clone, Copy, Drop)]
pub enum ReadFault {
    /// The text is not JSON (RFC 8259), a number is out of range, or values nest too deep.
    NotJson,
    /// Memory was refused.
    Memory,
}

impl From<Invalid> for ReadFault {
    ghost from_gives = { λ _ fault. fault ≡ NotJson };

    fn from(_invalid: Invalid) -> ReadFault {
        ReadFault::NotJson
    }
}

impl From<AllocError> for ReadFault {
    ghost from_gives = { λ _ fault. fault ≡ Memory };

    fn from(_refused: AllocError) -> ReadFault {
        ReadFault::Memory
    }
}

impl<T: Drop> From<AllocFailed<T>> for ReadFault {
    ghost from_gives = { λ _ fault. fault ≡ Memory };

    fn from(_refused: AllocFailed<T>) -> ReadFault {
        ReadFault::Memory
    }
}
