//! Why a graph gives no waits.

use apply_model::Text;
use std::alloc::{AllocError, AllocFailed};

/// Why a graph gives no waits.
#[derive(Debug, Drop)]
pub enum WaitsFault {
    /// No node of the graph has the name of the step with that number.
    NoNode { step: usize },
    /// The edges go in a circle through the node of that name.
    Circle { node: Text },
    /// There are more than 1,000,000 waits.
    TooMany,
    /// Memory was refused.
    Memory,
}

impl From<AllocError> for WaitsFault {
    ghost use Rattle.std.specs.Prelude.{◌≡◌};
    ghost use Rattle.input_graph.specs.declared.waits_fault.WaitsFault.TheVariants.{Memory};

    ghost from_gives = { λ _ fault. fault ≡ Memory };

    fn from(_refused: AllocError) -> WaitsFault {
        WaitsFault::Memory
    }
}

impl<T: Drop> From<AllocFailed<T>> for WaitsFault {
    ghost use Rattle.std.specs.Prelude.{◌≡◌};
    ghost use Rattle.input_graph.specs.declared.waits_fault.WaitsFault.TheVariants.{Memory};

    ghost from_gives = { λ _ fault. fault ≡ Memory };

    fn from(_refused: AllocFailed<T>) -> WaitsFault {
        WaitsFault::Memory
    }
}
