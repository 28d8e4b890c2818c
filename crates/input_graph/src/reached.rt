//! Searches the nodes that a step reaches. Every `Err` means that memory was refused.

ghost use Rattle.std.specs.Prelude.{◌≡◌, ◌<◌, ◌≤◌, [], All, IfOk, OnOk, get_or, length, set};
ghost use Rattle.input_graph.specs.AllWaits.{lists_in};
ghost use Rattle.input_graph.specs.Numbering.{AreSeen, HaveJoined, IsNumbered};
ghost use Rattle.input_graph.specs.Reached.{HasReached};

use crate::numbered_graph::NumberedGraph;
use std::alloc::{AllocError, Global};

/// The numbers of the nodes that a path of edges reaches from a node, through nodes that are no
/// step. `seen` has a mark for each node, less than `stamp`.
pub fn reached_nodes(
    alloc: Global,
    graph: &NumberedGraph<'_, '_>,
    seen: &mut Vec<usize>,
    stamp: usize,
    start: usize,
) -> Result<Vec<usize>, AllocError>
    requires numbered { IsNumbered graph.now }
    requires start { start < length graph.now.names.keys }
    requires each { length seen.old.items ≡ length graph.now.names.keys }
    requires marks { All (λ mark. mark < stamp) seen.old.items }
    ensures reached { IfOk result (λ found. HasReached graph.now start found.items) }
    ensures each { OnOk result (length seen.new.items ≡ length graph.now.names.keys) }
    ensures marks { OnOk result (All (λ mark. mark ≤ stamp) seen.new.items) }
{
    let mut found = Vec::new(alloc);
    add_targets(graph, &mut found, seen, stamp, start)?;
    // Nodes join at the end, and the edges of each are followed once.
    'nodes: for place in 0..usize::MAX {
        if place >= found.len() {
            return Ok(found);
        }
        let node = found[place];
        if graph.step_of[node].is_none() {
            add_targets(graph, &mut found, seen, stamp, node)?;
        }
    }
    // No list has that many nodes.
    let _len = found.len();
    Ok(found)
}

/// Adds the nodes to which the edges of a node lead.
fn add_targets(
    graph: &NumberedGraph<'_, '_>,
    found: &mut Vec<usize>,
    seen: &mut Vec<usize>,
    stamp: usize,
    node: usize,
) -> Result<(), AllocError>
    requires numbered { IsNumbered graph.now }
    requires node { node < length graph.now.names.keys }
    requires seen { AreSeen seen.old.items stamp found.old.items (length graph.now.names.keys) }
    ensures joined { OnOk result (HaveJoined found.old.items (get_or (lists_in graph.now.targets.items) node []) found.new.items) }
    ensures seen { OnOk result (AreSeen seen.new.items stamp found.new.items (length graph.now.names.keys)) }
{
    add_all(found, seen, stamp, &graph.targets[node])
}

/// Adds nodes that are not yet there.
fn add_all(
    found: &mut Vec<usize>,
    seen: &mut Vec<usize>,
    stamp: usize,
    more: &[usize],
) -> Result<(), AllocError>
    requires within { All (λ node. node < length seen.old.items) more.now }
    requires seen { AreSeen seen.old.items stamp found.old.items (length seen.old.items) }
    ensures joined { OnOk result (HaveJoined found.old.items more.now found.new.items) }
    ensures seen { OnOk result (AreSeen seen.new.items stamp found.new.items (length seen.old.items)) }
{
    for node in more {
        if seen[*node] != stamp {
            found.push(*node)?;
            mark(seen, stamp, *node);
        }
    }
    Ok(())
}

/// Marks a node.
fn mark(seen: &mut Vec<usize>, stamp: usize, node: usize)
    requires { node < length seen.old.items }
    ensures { seen.new.items ≡ set seen.old.items node stamp }
{
    seen[node] = stamp;
}
