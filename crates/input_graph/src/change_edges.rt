//! The edges between steps of one change. Every `Err` means that memory was refused.

ghost use Rattle.std.specs.Prelude.{◌≡◌, ◌++◌, IfOk, OnOk};
ghost use Rattle.input_graph.specs.PlanEdges.{change_edges};
ghost use Rattle.input_graph.specs.Targets.{edge_texts};

use crate::step_node::StepNode;
use std::alloc::{AllocError, Global};

/// The edges, and after them an edge from each step to the step before it in its change.
pub fn with_change_edges<'a>(
    alloc: Global,
    edges: &[(&'a str, &'a str)],
    steps: &'a [StepNode],
) -> Result<Vec<(&'a str, &'a str)>, AllocError>
    ensures { IfOk result (λ all. edge_texts all.items ≡ edge_texts edges.now ++ change_edges steps.now) }
{
    let mut all = edges.to_vec(alloc)?;
    add_change_edges(&mut all, steps)?;
    Ok(all)
}

/// Adds an edge from each step to the step before it in its change.
fn add_change_edges<'a>(
    edges: &mut Vec<(&'a str, &'a str)>,
    steps: &'a [StepNode],
) -> Result<(), AllocError>
    ensures { OnOk result (edge_texts edges.new.items ≡ edge_texts edges.old.items ++ change_edges steps.now) }
{
    for place in 1..steps.len() {
        let step = &steps[place];
        if step.follows {
            edges.push((step.name.as_str(), steps[place - 1].name.as_str()))?;
        }
    }
    Ok(())
}
