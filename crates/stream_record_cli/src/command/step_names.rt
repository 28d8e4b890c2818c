//! The nodes that a graph has for the steps of a plan.
//!
//! Every `Err` means that memory was refused.

ghost use Rattle.std.specs.Prelude.{◌≡◌, ◌++◌, IfOk, OnOk};
ghost use Rattle.stream_record_cli.specs.StepNames.{nodes_of_change, step_nodes};

use apply_plan::{Change, Plan};
use input_graph::{StepNode, step_name};
use std::alloc::{AllocError, Global};

/// The nodes of all steps, in the plan's order.
pub fn step_nodes(alloc: Global, plan: &Plan) -> Result<Vec<StepNode>, AllocError>
    ensures { IfOk result (λ nodes. nodes.items ≡ step_nodes plan.now.changes) }
{
    let mut nodes = Vec::new(alloc);
    for place in 0..plan.len() {
        push_nodes(alloc, &mut nodes, plan.change(place))?;
    }
    Ok(nodes)
}

/// Adds the nodes of a change.
fn push_nodes(alloc: Global, nodes: &mut Vec<StepNode>, change: &Change) -> Result<(), AllocError>
    ensures { OnOk result (nodes.new.items ≡ nodes.old.items ++ nodes_of_change change.now) }
{
    let mut follows = false;
    for kind in change.steps() {
        let name = step_name(alloc, change.address(), change.deposed(), kind.is_delete())?;
        nodes.push(StepNode { name, follows })?;
        follows = true;
    }
    Ok(())
}
