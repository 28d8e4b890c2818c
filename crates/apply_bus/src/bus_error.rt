//! Why a bus or claims were not opened.

use std::alloc::AllocError;
use thiserror::Error;

/// Why a bus or claims were not opened. The variants are tested in this order.
#[derive(Clone, Copy, Debug, Drop, Error, PartialEq, Eq)]
pub enum BusError {
    /// The number of workers is not 1 to 8, or the capacity is not 1 to 1,024.
    #[error("a size is out of range")]
    BadSize,
    /// Memory was refused.
    #[error("out of memory")]
    Memory,
}

impl From<AllocError> for BusError {
    ghost use Rattle.std.specs.Prelude.{◌≡◌};
    ghost use Rattle.apply_bus.specs.declared.bus_error.BusError.TheVariants.{Memory};

    ghost from_gives = { λ _ error. error ≡ Memory };

    fn from(_: AllocError) -> BusError {
        BusError::Memory
    }
}
