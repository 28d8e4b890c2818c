//! Searches edges for a circle. Every `Err` means that memory was refused.
//!
//! The search goes along a path of nodes, with an edge from each node to the next one. A node is
//! done once all nodes to which its edges lead are done.

ghost use Rattle.std.specs.Prelude.{◌≡◌, IfNone, IfOk, IfSome, List, ℕ};
ghost use Rattle.std.specs.List.{Contains};
ghost use Rattle.input_graph.specs.Circles.{AreRanked, IsOnCircle};
ghost use Rattle.input_graph.specs.CircleSearch.{IsSettled};
ghost use Rattle.input_graph.specs.Targets.{texts};

use crate::targets::Targets;
use indexmap::IndexSet;
use std::alloc::{AllocError, Global};

/// A node on the path.
#[derive(Clone, Copy)]
struct Visit<'a> {
    node: &'a str,
    /// How many of the node's edges lead to nodes that are known to be done, from the first on.
    passed: usize,
}

/// A node on a circle of edges. `None` where no edges go in a circle.
pub fn node_on_circle<'a>(alloc: Global, edges: &Targets<'a>) -> Result<Option<&'a str>, AllocError>
    ensures circle { IfOk result (λ found. IfSome found (λ node. IsOnCircle edges.now node.now)) }
    ensures ranked { IfOk result (λ found. IfNone found (AreRanked edges.now)) }
{
    let mut seen = IndexSet::new(alloc);
    let mut done = IndexSet::new(alloc);
    for (from, _) in edges.edges() {
        if let Some(node) = circle_from(alloc, edges, &mut seen, &mut done, *from)? {
            return Ok(Some(node));
        }
    }
    Ok(None)
}

/// Searches for a circle from a node on. Where there is none, this node is done.
fn circle_from<'a>(
    alloc: Global,
    edges: &Targets<'a>,
    seen: &mut IndexSet<&'a str>,
    done: &mut IndexSet<&'a str>,
    start: &'a str,
) -> Result<Option<&'a str>, AllocError>
    requires { IsSettled edges.now (texts seen.old.keys) (texts done.old.keys) }
    ensures circle { IfOk result (λ found. IfSome found (λ node. IsOnCircle edges.now node.now)) }
    ensures settled { IfOk result (λ found. IfNone found (IsSettled edges.now (texts seen.new.keys) (texts done.new.keys))) }
    ensures begun { IfOk result (λ found. IfNone found (Contains (texts seen.new.keys) start.now)) }
    ensures kept { IfOk result (λ found. IfNone found
        ((node : List ℕ) → Contains (texts seen.old.keys) node → Contains (texts seen.new.keys) node)) }
{
    if seen.contains(start) {
        return Ok(None);
    }
    seen.insert(start)?;
    let mut path = Vec::new(alloc);
    path.push(Visit {
        node: start,
        passed: 0,
    })?;
    while let Some(visit) = path.pop() {
        let Some(next) = edges.target_at(visit.node, visit.passed) else {
            done.insert(visit.node)?;
            continue;
        };
        if done.contains(next) {
            path.push(Visit {
                node: visit.node,
                passed: visit.passed + 1,
            })?;
            continue;
        }
        if seen.contains(next) {
            return Ok(Some(next));
        }
        seen.insert(next)?;
        path.push(visit)?;
        path.push(Visit {
            node: next,
            passed: 0,
        })?;
    }
    Ok(None)
}
