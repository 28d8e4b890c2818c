//! Why a graph was refused.

use thiserror::Error;

/// Why a graph was refused. Lines are counted from 1.
#[derive(Clone, Copy, Debug, Drop, Error, PartialEq, Eq)]
pub enum GraphRefusal {
    /// There are more than 67,108,864 bytes.
    #[error("the graph is larger than 67108864 bytes")]
    TooLarge,
    /// A line begins like a node, but is neither a node nor an edge.
    #[error("line {0} of the graph is neither a node nor an edge")]
    Neither(usize),
    /// A line names a node that no graph of a plan has.
    #[error("line {0} of the graph is not of a plan's graph: terraform graph -plan=FILE prints it, before the plan is applied")]
    NotOfPlan(usize),
    /// All lines are blank.
    #[error("there is no graph in the file: terraform graph -plan=FILE prints it, before the plan is applied")]
    NoGraph,
    /// No line is a node or an edge.
    #[error("the graph has no node: terraform graph -plan=FILE prints it, before the plan is applied")]
    NoNode,
    /// No node is the step of the plan with that number, counted from 0. It is the first such step.
    /// The message names it.
    #[error("the graph has no node for step {0}")]
    LacksStep(usize),
    /// The edges go in a circle. The message names a node on it.
    #[error("the graph goes in a circle")]
    Circle,
    /// The steps of the plan have more than 1,000,000 waits.
    #[error("the graph has more than 1000000 waits")]
    TooManyWaits,
}
