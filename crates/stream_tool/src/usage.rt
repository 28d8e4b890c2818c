//! Why arguments give no settings.

ghost use Rattle.std.specs.Prelude.{◌≡◌};
ghost use Rattle.stream_tool.specs.declared.usage.Usage.TheVariants.{Memory};

use std::alloc::{AllocError, AllocFailed};

/// Why arguments give no settings.
#[derive(Debug, Drop)]
pub enum Usage {
    /// They ask for help. The text is the help.
    Help(String),
    /// They do not fit the command. The text says why, and shows the usage.
    Words(String),
    /// Memory was refused.
    Memory,
}

impl From<AllocError> for Usage {
    ghost from_gives = { λ _ usage. usage ≡ Memory };

    fn from(_refused: AllocError) -> Usage {
        Usage::Memory
    }
}

impl<T: Drop> From<AllocFailed<T>> for Usage {
    ghost from_gives = { λ _ usage. usage ≡ Memory };

    fn from(_refused: AllocFailed<T>) -> Usage {
        Usage::Memory
    }
}
