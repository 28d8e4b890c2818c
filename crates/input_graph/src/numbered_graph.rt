//! The edges of a graph between nodes that have numbers. Every `Err` means that memory was refused.

ghost use Rattle.std.specs.Prelude.{◌≡◌, IfOk, OnOk, length};
ghost use Rattle.input_graph.specs.AllWaits.{lists_in};
ghost use Rattle.input_graph.specs.Numbering.{AreNumbersOf, AreStarts, Extends, HaveSteps, HaveTargets, IsNumbered};
ghost use Rattle.input_graph.specs.Targets.{targets_of, texts};

use crate::step_nodes::StepNodes;
use crate::targets::Targets;
use indexmap::IndexSet;
use std::alloc::{AllocError, Global};

/// The nodes of the steps and all nodes that edges reach from them, with a number for each.
#[derive(Drop)]
pub struct NumberedGraph<'n, 'a> {
    pub nodes: &'n StepNodes<'a>,
    pub edges: Targets<'a>,
    /// The names of the nodes, by number.
    pub names: IndexSet<&'a str>,
    /// For each node, the numbers of the nodes to which its edges lead.
    pub targets: Vec<Vec<usize>>,
    /// For each node, the number of the first step that has it.
    pub step_of: Vec<Option<usize>>,
    /// For each step, the number of its node.
    pub starts: Vec<usize>,
}

impl<'n, 'a> NumberedGraph<'n, 'a> {
    /// Numbers the nodes that edges reach from the nodes of steps.
    pub fn new(
        alloc: Global,
        nodes: &'n StepNodes<'a>,
        edges: Targets<'a>,
    ) -> Result<NumberedGraph<'n, 'a>, AllocError>
        ensures numbered { IfOk result (λ graph. IsNumbered graph) }
        ensures nodes { IfOk result (λ graph. graph.nodes.now ≡ nodes.now) }
        ensures edges { IfOk result (λ graph. graph.edges ≡ edges.entry) }
    {
        let mut names = IndexSet::new(alloc);
        let starts = starts_of(alloc, nodes, &mut names)?;
        let targets = targets_by_number(alloc, &edges, &mut names)?;
        let step_of = steps_by_number(alloc, nodes, &names)?;
        Ok(NumberedGraph {
            nodes,
            edges,
            names,
            targets,
            step_of,
            starts,
        })
    }
}

/// Numbers the nodes of steps. The numbers are in the order of the steps.
fn starts_of<'a>(
    alloc: Global,
    nodes: &StepNodes<'a>,
    names: &mut IndexSet<&'a str>,
) -> Result<Vec<usize>, AllocError>
    ensures { IfOk result (λ starts. AreStarts nodes.now (texts names.new.keys) starts.items (length nodes.now)) }
{
    let mut starts = Vec::new(alloc);
    for step in 0..nodes.len() {
        let (number, _) = names.insert_full(nodes.name(step))?;
        starts.push(number)?;
    }
    Ok(starts)
}

/// For each numbered node, the numbers of the nodes to which its edges lead. Numbers those too.
fn targets_by_number<'a>(
    alloc: Global,
    edges: &Targets<'a>,
    names: &mut IndexSet<&'a str>,
) -> Result<Vec<Vec<usize>>, AllocError>
    ensures targets { IfOk result (λ targets.
        HaveTargets edges.now (texts names.new.keys) (lists_in targets.items) (length names.new.keys)) }
    ensures names { OnOk result (Extends (texts names.old.keys) (texts names.new.keys)) }
{
    let mut targets = Vec::new(alloc);
    // Names join at the end, and the edges of each are followed once.
    for number in 0..usize::MAX {
        if number >= names.len() {
            return Ok(targets);
        }
        let name = *names.get_index(number).unwrap();
        targets.push(target_numbers(alloc, edges, name, names)?)?;
    }
    // No set has that many names.
    let _len = names.len();
    Ok(targets)
}

/// The numbers of the nodes to which the edges of a node lead. Numbers those that have none yet.
fn target_numbers<'a>(
    alloc: Global,
    edges: &Targets<'a>,
    node: &str,
    names: &mut IndexSet<&'a str>,
) -> Result<Vec<usize>, AllocError>
    ensures numbers { IfOk result (λ numbers. AreNumbersOf (texts names.new.keys) numbers.items (targets_of edges.now node.now)) }
    ensures names { OnOk result (Extends (texts names.old.keys) (texts names.new.keys)) }
{
    match edges.of(node) {
        Some(targets) => numbers_of(alloc, targets.as_slice(), names),
        None => Ok(Vec::new(alloc)),
    }
}

/// The numbers of nodes. Numbers those that have none yet.
fn numbers_of<'a>(
    alloc: Global,
    nodes: &[&'a str],
    names: &mut IndexSet<&'a str>,
) -> Result<Vec<usize>, AllocError>
    ensures numbers { IfOk result (λ numbers. AreNumbersOf (texts names.new.keys) numbers.items (texts nodes.now)) }
    ensures names { OnOk result (Extends (texts names.old.keys) (texts names.new.keys)) }
{
    let mut numbers = Vec::new(alloc);
    for node in nodes {
        let (number, _) = names.insert_full(*node)?;
        numbers.push(number)?;
    }
    Ok(numbers)
}

/// For each numbered node, the number of the first step that has it.
fn steps_by_number(
    alloc: Global,
    nodes: &StepNodes<'_>,
    names: &IndexSet<&str>,
) -> Result<Vec<Option<usize>>, AllocError>
    ensures { IfOk result (λ step_of. HaveSteps nodes.now (texts names.now.keys) step_of.items (length names.now.keys)) }
{
    let mut step_of = Vec::new(alloc);
    for number in 0..names.len() {
        let name = *names.get_index(number).unwrap();
        step_of.push(nodes.number(name))?;
    }
    Ok(step_of)
}
