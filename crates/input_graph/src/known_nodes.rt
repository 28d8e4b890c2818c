//! Finds a step that has no node. Every `Err` means that memory was refused.

ghost use Rattle.std.specs.Prelude.{◌≡◌, [], IfOk, OnOk};
ghost use Rattle.input_graph.specs.GraphNodes.{ends, first_without_node, known_nodes};
ghost use Rattle.input_graph.specs.Nodes.{with_all};
ghost use Rattle.input_graph.specs.Targets.{edge_texts, texts};
ghost use Rattle.input_graph.specs.Waits.{known_edges};

use crate::graph::Graph;
use crate::step_nodes::StepNodes;
use indexmap::IndexSet;
use std::alloc::{AllocError, Global};

/// The number of the first step whose name no node of the graph has. `None` where each step has a
/// node. `edges` are the edges of the graph.
pub fn first_without_node<'a>(
    alloc: Global,
    graph: &'a Graph,
    edges: &[(&'a str, &'a str)],
    steps: &StepNodes<'a>,
) -> Result<Option<usize>, AllocError>
    requires { edge_texts edges.now ≡ known_edges steps.now graph.now }
    ensures { IfOk result (λ step. step ≡ first_without_node steps.now graph.now) }
{
    let nodes = known_nodes(alloc, graph, edges, steps)?;
    for step in 0..steps.len() {
        if !nodes.contains(steps.name(step)) {
            return Ok(Some(step));
        }
    }
    Ok(None)
}

/// The nodes of the graph, by the names under which the steps know them.
fn known_nodes<'a>(
    alloc: Global,
    graph: &'a Graph,
    edges: &[(&'a str, &'a str)],
    steps: &StepNodes<'a>,
) -> Result<IndexSet<&'a str>, AllocError>
    requires { edge_texts edges.now ≡ known_edges steps.now graph.now }
    ensures { IfOk result (λ nodes. texts nodes.keys ≡ with_all [] (known_nodes steps.now graph.now)) }
{
    let mut nodes = IndexSet::new(alloc);
    for node in graph.nodes() {
        nodes.insert(steps.known_name(alloc, node.as_str())?)?;
    }
    add_ends(&mut nodes, edges)?;
    Ok(nodes)
}

/// Adds both ends of each edge.
fn add_ends<'a>(
    nodes: &mut IndexSet<&'a str>,
    edges: &[(&'a str, &'a str)],
) -> Result<(), AllocError>
    ensures { OnOk result (texts nodes.new.keys ≡ with_all (texts nodes.old.keys) (ends (edge_texts edges.now))) }
{
    for (from, to) in edges {
        nodes.insert(*from)?;
        nodes.insert(*to)?;
    }
    Ok(())
}
