//! Why the command line gives no invocation.

ghost use Rattle.std.specs.Prelude.{◌≡◌};
ghost use Rattle.apply_cli_args.specs.declared.usage.Usage.TheVariants.{Memory};

use crate::misplaced::Misplaced;
use apply_model::Text;
use apply_text::MomentError;
use std::alloc::{AllocError, AllocFailed};

/// Why the command line gives no invocation. The variants are tested in this order, except
/// `Memory`. If both help and the version are asked for, the first one counts.
#[derive(Debug, Drop)]
pub enum Usage {
    /// Help is asked for; this is its text.
    Help(Text),
    /// The version is asked for.
    Version,
    /// An argument is not one of this program. The text gives the error and the usage.
    Words(Text),
    /// `--parallelism` is given together with `--workers` or `--queue`.
    Conflict,
    /// An option does not go with the command.
    Misplaced(Misplaced),
    /// `--at now` is given, and the clock could not be read, or its time is after 8999.
    Clock,
    /// The value of `--at` is not a timestamp, or out of range.
    Moment(MomentError),
    /// There are more than 32 halts.
    Hooks,
    /// Memory was refused.
    Memory,
}

impl From<AllocError> for Usage {
    ghost from_gives = { λ _ usage. usage ≡ Memory };

    fn from(_refused: AllocError) -> Usage {
        Usage::Memory
    }
}

impl<T: Drop> From<AllocFailed<T>> for Usage {
    ghost from_gives = { λ _ usage. usage ≡ Memory };

    fn from(_refused: AllocFailed<T>) -> Usage {
        Usage::Memory
    }
}
