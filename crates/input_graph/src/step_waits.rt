//! The steps that one step waits for.

ghost use Rattle.std.specs.Prelude.{◌≡◌, ◌<◌, ◌≤◌, ◌+◌, ◌++◌, All, IfOk, None, OnOk, get_or, length, option_to_list};
ghost use Rattle.std.specs.List.{filter_map};
ghost use Rattle.input_graph.specs.Numbering.{IsNumbered};
ghost use Rattle.input_graph.specs.Waits.{AreWaits, unless_same};

use crate::numbered_graph::NumberedGraph;
use crate::reached::reached_nodes;
use std::alloc::{AllocError, Global};

/// The steps that a step waits for, in their order. `seen` has a mark for each node, of an earlier
/// step. `Err` where memory is refused.
pub fn step_waits(
    alloc: Global,
    graph: &NumberedGraph<'_, '_>,
    seen: &mut Vec<usize>,
    step: usize,
) -> Result<Vec<usize>, AllocError>
    requires numbered { IsNumbered graph.now }
    requires step { step < length graph.now.nodes.now }
    requires each { length seen.old.items ≡ length graph.now.names.keys }
    requires marks { All (λ mark. mark ≤ step) seen.old.items }
    ensures waits { IfOk result (λ waits. AreWaits graph.now.nodes.now graph.now.edges step waits.items) }
    ensures each { OnOk result (length seen.new.items ≡ length graph.now.names.keys) }
    ensures marks { OnOk result (All (λ mark. mark ≤ step + 1) seen.new.items) }
{
    let start = graph.starts[step];
    let nodes = reached_nodes(alloc, graph, seen, step + 1, start)?;
    let mut waits = other_steps(alloc, &graph.step_of, &nodes, step)?;
    waits.sort_unstable();
    waits.dedup();
    Ok(waits)
}

/// The numbers of the other steps among nodes, in the order of the nodes.
fn other_steps(
    alloc: Global,
    step_of: &[Option<usize>],
    nodes: &[usize],
    step: usize,
) -> Result<Vec<usize>, AllocError>
    requires { All (λ node. node < length step_of.now) nodes.now }
    ensures { IfOk result (λ others. others.items ≡ filter_map (λ node. unless_same step (get_or step_of.now node None)) nodes.now) }
{
    let mut others = Vec::new(alloc);
    for node in nodes {
        add_other(&mut others, step_of[*node], step)?;
    }
    Ok(others)
}

/// Adds a step, if there is one and it is not this one.
fn add_other(others: &mut Vec<usize>, other: Option<usize>, step: usize) -> Result<(), AllocError>
    ensures { OnOk result (others.new.items ≡ others.old.items ++ option_to_list (unless_same step other)) }
{
    if let Some(other) = other {
        if other != step {
            others.push(other)?;
        }
    }
    Ok(())
}
