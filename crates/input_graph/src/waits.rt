//! The steps that each step of a plan waits for.

ghost use Rattle.std.specs.Prelude.{◌++◌, IfErr, IfNone, IfOk, IfSome, OnOk};
ghost use Rattle.input_graph.specs.AllWaits.{AreAllWaits, AreWaitsAlong, lists_in};
ghost use Rattle.input_graph.specs.Circles.{AreRanked, IsOnCircle};
ghost use Rattle.input_graph.specs.PlanEdges.{change_edges, plan_edges};
ghost use Rattle.input_graph.specs.StepNodes.{names_of};
ghost use Rattle.input_graph.specs.Targets.{edge_texts};
ghost use Rattle.input_graph.specs.WaitsRefusal.{IsOrderly, IsRefusedAlong, IsRefusedFor};

use crate::change_edges::with_change_edges;
use crate::circle::node_on_circle;
use crate::graph::Graph;
use crate::known_edges::known_edges;
use crate::known_nodes::first_without_node;
use crate::numbered_graph::NumberedGraph;
use crate::step_node::StepNode;
use crate::step_nodes::StepNodes;
use crate::step_waits::step_waits;
use crate::targets::Targets;
use crate::waits_fault::WaitsFault;
use apply_model::Text;
use std::alloc::{AllocError, Global};

/// The most waits of a plan.
pub const MAX_WAITS: usize = 1_000_000;

/// For each step of a plan, the numbers of the steps that it waits for, in their order.
///
/// The steps are those of the whole plan, in its order. A step that `follows` also waits for the
/// step before it. This wait is not listed, but it counts where edges go in a circle.
///
/// `Err` is one of these. Of several, the first in this order comes:
/// - `WaitsFault::NoNode`: no node of the graph has the name of this step. The first such step
///   counts.
/// - `WaitsFault::Circle`: the edges go in a circle through this node.
/// - `WaitsFault::TooMany`: there are more than 1,000,000 waits.
/// - `WaitsFault::Memory`: memory was refused.
pub fn waits_of(
    alloc: Global,
    graph: &Graph,
    steps: &[StepNode],
) -> Result<Vec<Vec<usize>>, WaitsFault>
    ensures ok { IfOk result (λ waits. AreAllWaits (names_of steps.now) graph.now (lists_in waits.items)) }
    ensures orderly { OnOk result (IsOrderly steps.now graph.now) }
    ensures ranked { OnOk result (AreRanked (plan_edges steps.now graph.now)) }
    ensures err { IfErr result (λ fault. IsRefusedFor steps.now graph.now fault) }
{
    let nodes = StepNodes::new(alloc, steps)?;
    let edges = known_edges(alloc, graph, &nodes)?;
    if let Some(step) = first_without_node(alloc, graph, &edges, &nodes)? {
        return Err(WaitsFault::NoNode { step });
    }
    if let Some(node) = circle_in(alloc, &edges, steps)? {
        return Err(WaitsFault::Circle { node });
    }
    all_waits(alloc, &nodes, edges)
}

/// The name of a node through which the edges go in a circle, with those from steps to the steps
/// before them. `None` where they go in no circle. `Err` where memory is refused.
fn circle_in<'a>(
    alloc: Global,
    edges: &[(&'a str, &'a str)],
    steps: &'a [StepNode],
) -> Result<Option<Text>, AllocError>
    ensures circle { IfOk result (λ found. IfSome found (IsOnCircle (edge_texts edges.now ++ change_edges steps.now))) }
    ensures ranked { IfOk result (λ found. IfNone found (AreRanked (edge_texts edges.now ++ change_edges steps.now))) }
{
    let targets = Targets::new(alloc, with_change_edges(alloc, edges, steps)?)?;
    match node_on_circle(alloc, &targets)? {
        Some(node) => Ok(Some(Text::new(alloc, node)?)),
        None => Ok(None),
    }
}

/// For each step, the numbers of the steps that it waits for. `edges` are the edges of the graph.
/// `Err` is `WaitsFault::TooMany` or `WaitsFault::Memory`, as in `waits_of`.
fn all_waits<'a>(
    alloc: Global,
    nodes: &StepNodes<'a>,
    edges: Vec<(&'a str, &'a str)>,
) -> Result<Vec<Vec<usize>>, WaitsFault>
    ensures ok { IfOk result (λ waits. AreWaitsAlong nodes.now (edge_texts edges.entry.items) (lists_in waits.items)) }
    ensures err { IfErr result (IsRefusedAlong nodes.now (edge_texts edges.entry.items)) }
{
    let graph = NumberedGraph::new(alloc, nodes, Targets::new(alloc, edges)?)?;
    let mut seen = vec![in alloc; 0; graph.names.len()]?;
    let mut all = Vec::new(alloc);
    let mut count = 0;
    for step in 0..nodes.len() {
        let waits = step_waits(alloc, &graph, &mut seen, step)?;
        let len = waits.len();
        if len > MAX_WAITS - count {
            return Err(WaitsFault::TooMany);
        }
        count += len;
        all.push(waits)?;
    }
    Ok(all)
}
