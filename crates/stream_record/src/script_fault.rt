//! Why no script was made.

use std::alloc::{AllocError, AllocFailed};
use thiserror::Error;

/// Why no script was made.
#[derive(Clone, Copy, Debug, Drop, Error, PartialEq, Eq)]
pub enum ScriptFault {
    /// The script would have more than 67,108,864 bytes, and a run would refuse it.
    #[error("the script is larger than 67108864 bytes")]
    TooLarge,
    /// Memory was refused.
    #[error("out of memory")]
    Memory,
}

impl From<AllocError> for ScriptFault {
    ghost use Rattle.std.specs.Prelude.{◌≡◌};
    ghost use Rattle.stream_record.specs.declared.script_fault.ScriptFault.TheVariants.{Memory};

    ghost from_gives = { λ _ fault. fault ≡ Memory };

    fn from(_refused: AllocError) -> ScriptFault {
        ScriptFault::Memory
    }
}

impl<T: Drop> From<AllocFailed<T>> for ScriptFault {
    ghost use Rattle.std.specs.Prelude.{◌≡◌};
    ghost use Rattle.stream_record.specs.declared.script_fault.ScriptFault.TheVariants.{Memory};

    ghost from_gives = { λ _ fault. fault ≡ Memory };

    fn from(_refused: AllocFailed<T>) -> ScriptFault {
        ScriptFault::Memory
    }
}
