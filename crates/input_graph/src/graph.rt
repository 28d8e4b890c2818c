//! The graph of a plan.

use crate::graph_fault::GraphFault;
use crate::graph_line::GraphLine;
use apply_model::Text;
use std::alloc::Global;
use std::marker::Model;

/// The graph of a plan: the names of its nodes, and its edges. Names have no `[root] ` at the
/// front.
///
/// An edge is a pair of names: the first node waits for the second. Not each node of an edge has a
/// line of its own, and so a place among the nodes.
#[derive(Drop)]
pub struct Graph {
    nodes: Vec<Text>,
    edges: Vec<(Text, Text)>,
}

impl Model for Graph {
    ghost use Rattle.input_graph.specs.NamedGraph.{NamedGraph};

    ghost Value = { NamedGraph };

    ghost view = { λ graph. record { nodes = graph.nodes.items; edges = graph.edges.items } };
}

impl Graph {
    ghost use Rattle.std.specs.Prelude.{◌≡◌, ◌≢◌, [], IfErr, None, OnOk, Some};
    ghost use Rattle.input_graph.specs.declared.graph_fault.GraphFault.TheVariants.{Memory};
    ghost use Rattle.input_graph.specs.Reading.{fault_in, graph_of_line, joined};

    /// A graph without nodes and edges.
    pub(crate) fn new(alloc: Global) -> Graph
        ensures { result ≡ record { nodes = []; edges = [] } }
    {
        Graph {
            nodes: Vec::new(alloc),
            edges: Vec::new(alloc),
        }
    }

    /// Adds what the line of that number is. `Err` is `GraphFault::Memory`, or the fault of the
    /// line.
    pub(crate) fn add(&mut self, number: usize, line: GraphLine) -> Result<(), GraphFault>
        ensures ok { OnOk result ((fault_in number line ≡ None) × (self.new ≡ joined self.old (graph_of_line line))) }
        ensures err { IfErr result (λ fault. fault ≢ Memory → fault_in number line ≡ Some fault) }
    {
        match line {
            GraphLine::Other => {}
            GraphLine::Node(name) => self.nodes.push(name)?,
            GraphLine::Edge(from, to) => self.edges.push((from, to))?,
            GraphLine::Neither => return Err(GraphFault::NeitherNodeNorEdge { line: number }),
            GraphLine::NotOfPlan => return Err(GraphFault::NotOfPlan { line: number }),
        }
        Ok(())
    }

    /// The names of the nodes that have a line of their own, in the order of the lines.
    pub fn nodes(&self) -> &[Text]
        ensures { result.now ≡ self.now.nodes }
    {
        &self.nodes
    }

    /// The edges in the order of the lines.
    pub fn edges(&self) -> &[(Text, Text)]
        ensures { result.now ≡ self.now.edges }
    {
        &self.edges
    }
}
