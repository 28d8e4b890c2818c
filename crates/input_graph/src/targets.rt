//! The edges of a graph, by the node at which they begin.

ghost use Rattle.std.specs.Prelude.{◌≡◌, ◌<◌, [], IfOk, OnSome, slice_get};
ghost use Rattle.std.specs.Option.{option_copied, option_map_or};
ghost use Rattle.input_graph.specs.Targets.{edge_texts, targets_of, texts};

use std::alloc::{AllocError, Global};
use std::collections::HashMap;
use std::marker::Model;

/// The edges of a graph. Contracts see the edges in their order.
#[derive(Drop)]
pub struct Targets<'a> {
    edges: Vec<(&'a str, &'a str)>,
    /// For each node at which edges begin, the nodes at which they end.
    by_node: HashMap<&'a str, Vec<&'a str>>,
}

impl<'a> Model for Targets<'a> {
    ghost use Rattle.std.specs.Prelude.{List, ℕ};
    ghost use Rattle.input_graph.specs.Targets.{AreTargets, edge_texts};

    ghost Value = { List (List ℕ × List ℕ) };

    ghost view = { λ targets. edge_texts targets.edges.items };

    ghost invariant = { λ targets. AreTargets targets.by_node targets.edges.items };
}

impl<'a> Targets<'a> {
    /// The targets of these edges. `Err` where memory is refused.
    pub fn new(alloc: Global, edges: Vec<(&'a str, &'a str)>) -> Result<Targets<'a>, AllocError>
        ensures { IfOk result (λ targets. targets ≡ edge_texts edges.entry.items) }
    {
        let mut by_node: HashMap<&'a str, Vec<&'a str>> = HashMap::new(alloc);
        for (from, to) in edges.iter() {
            by_node.entry(*from)?.or_default().push(*to)?;
        }
        Ok(Targets { edges, by_node })
    }

    /// The edges, in their order.
    pub fn edges(&self) -> &[(&'a str, &'a str)]
        ensures { edge_texts result.now ≡ self.now }
    {
        &self.edges
    }

    /// The nodes to which the edges of a node lead, in the order of the edges. `None` where no edge
    /// begins at the node.
    pub fn of(&self, node: &str) -> Option<&Vec<&'a str>>
        ensures { option_map_or (λ targets. texts targets.now.items) result [] ≡ targets_of self.now node.now }
    {
        self.by_node.get(node)
    }

    /// The node to which the edge with that number leads, among the edges of a node. `None` where
    /// the node has no such edge.
    pub fn target_at(&self, node: &str, number: usize) -> Option<&'a str>
        ensures target { option_copied result ≡ slice_get (targets_of self.now node.now) number }
        ensures few { OnSome result (number < usize.MAX) }
    {
        let targets = self.of(node)?;
        if number < targets.len() {
            Some(targets[number])
        } else {
            None
        }
    }
}
