//! Why a graph was refused.

use std::alloc::{AllocError, AllocFailed};

/// Why a graph was refused. Lines are counted from 1.
#[derive(Clone, Copy, Debug, Drop)]
pub enum GraphFault {
    /// There are more than 67,108,864 bytes.
    TooLarge,
    /// A line begins like a node, but is neither a node nor an edge.
    NeitherNodeNorEdge { line: usize },
    /// A line names a node that no graph of a plan has: its name does not begin with `[root] `.
    NotOfPlan { line: usize },
    /// All lines are blank.
    NoGraph,
    /// No line is a node or an edge.
    NoNode,
    /// Memory was refused.
    Memory,
}

impl From<AllocError> for GraphFault {
    ghost use Rattle.std.specs.Prelude.{◌≡◌};
    ghost use Rattle.input_graph.specs.declared.graph_fault.GraphFault.TheVariants.{Memory};

    ghost from_gives = { λ _ fault. fault ≡ Memory };

    fn from(_refused: AllocError) -> GraphFault {
        GraphFault::Memory
    }
}

impl<T: Drop> From<AllocFailed<T>> for GraphFault {
    ghost use Rattle.std.specs.Prelude.{◌≡◌};
    ghost use Rattle.input_graph.specs.declared.graph_fault.GraphFault.TheVariants.{Memory};

    ghost from_gives = { λ _ fault. fault ≡ Memory };

    fn from(_refused: AllocFailed<T>) -> GraphFault {
        GraphFault::Memory
    }
}
