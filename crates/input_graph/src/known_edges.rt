//! The edges of a graph, by the names under which the steps know the nodes.

ghost use Rattle.std.specs.Prelude.{◌≡◌, IfOk};
ghost use Rattle.input_graph.specs.Targets.{edge_texts};
ghost use Rattle.input_graph.specs.Waits.{known_edges};

use crate::graph::Graph;
use crate::step_nodes::StepNodes;
use std::alloc::{AllocError, Global};

/// The edges of a graph, by the names under which the steps know the nodes. `Err` where memory is
/// refused.
pub fn known_edges<'a>(
    alloc: Global,
    graph: &'a Graph,
    steps: &StepNodes<'a>,
) -> Result<Vec<(&'a str, &'a str)>, AllocError>
    ensures { IfOk result (λ edges. edge_texts edges.items ≡ known_edges steps.now graph.now) }
{
    let mut edges = Vec::new(alloc);
    for edge in graph.edges() {
        let from = steps.known_name(alloc, edge.0.as_str())?;
        let to = steps.known_name(alloc, edge.1.as_str())?;
        edges.push((from, to))?;
    }
    Ok(edges)
}
