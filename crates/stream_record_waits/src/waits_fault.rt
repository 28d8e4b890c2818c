//! Why a stream gives no waits.

use std::alloc::{AllocError, AllocFailed};

/// Why a stream gives no waits.
#[derive(Clone, Copy, Debug, Drop)]
pub enum WaitsFault {
    /// There are more than 1,000,000 waits.
    TooMany,
    /// Memory was refused.
    Memory,
}

impl From<AllocError> for WaitsFault {
    ghost use Rattle.std.specs.Prelude.{◌≡◌};
    ghost use Rattle.stream_record_waits.specs.declared.waits_fault.WaitsFault.TheVariants.{Memory};

    ghost from_gives = { λ _ fault. fault ≡ Memory };

    fn from(_refused: AllocError) -> WaitsFault {
        WaitsFault::Memory
    }
}

impl<T: Drop> From<AllocFailed<T>> for WaitsFault {
    ghost use Rattle.std.specs.Prelude.{◌≡◌};
    ghost use Rattle.stream_record_waits.specs.declared.waits_fault.WaitsFault.TheVariants.{Memory};

    ghost from_gives = { λ _ fault. fault ≡ Memory };

    fn from(_refused: AllocFailed<T>) -> WaitsFault {
        WaitsFault::Memory
    }
}
