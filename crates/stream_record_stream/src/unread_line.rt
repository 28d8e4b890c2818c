//! Why a line was not read.

ghost use Rattle.std.specs.Prelude.{◌≡◌};
ghost use Rattle.stream_record_stream.specs.declared.unread_line.UnreadLine.TheVariants.{Memory};

use std::alloc::AllocError;

/// Why a line was not read.
#[derive(Clone, Copy, Debug, Drop, PartialEq, Eq)]
pub enum UnreadLine {
    /// It repeats the version of the line `first`.
    VersionAgain { first: u64 },
    /// Memory was refused.
    Memory,
}

impl From<AllocError> for UnreadLine {
    ghost from_gives = { λ _ why. why ≡ Memory };

    fn from(_refused: AllocError) -> UnreadLine {
        UnreadLine::Memory
    }
}
