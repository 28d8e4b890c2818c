//! The waits that a graph states.

ghost use Rattle.std.specs.Prelude.{◌≡◌, ◌⊎◌, IfErr, IfOk};
ghost use Rattle.input_graph.specs.AllWaits.{lists_in};
ghost use Rattle.stream_record_cli.specs.Causes.{of_waits_fault};
ghost use Rattle.stream_record_cli.specs.Graphs.{AreGraphWaits, IsWaitsFault};
ghost use Rattle.stream_record_cli.specs.declared.record_fault.RecordFault.TheVariants.{Memory};

use crate::command::step_names::step_nodes;
use crate::graph_refusal::GraphRefusal;
use crate::record_fault::RecordFault;
use crate::refusal::Refusal;
use apply_plan::Plan;
use input_graph::{WaitsFault, read_graph, waits_of};
use std::alloc::{AllocError, Global};
use stream_record_steps::planned_steps;
use stream_record_warnings::{push_step, step_at};
use term_words::MessageText;

/// The waits that the graph states, for each step of the plan.
///
/// `Err` has `RecordFault::Graph` if the graph is refused, and `RecordFault::Memory` if memory was
/// refused.
pub fn graph_waits(alloc: Global, plan: &Plan, graph: &[u8]) -> Result<Vec<Vec<usize>>, Refusal>
    ensures ok { IfOk result (λ waits. AreGraphWaits plan.now.changes graph.now (lists_in waits.items)) }
    ensures err { IfErr result (λ refusal. IsWaitsFault plan.now.changes graph.now refusal.fault) }
{
    let graph = read_graph(alloc, graph)?;
    let nodes = step_nodes(alloc, plan)?;
    match waits_of(alloc, &graph, &nodes) {
        Ok(waits) => Ok(waits),
        Err(fault) => Err(waitless(alloc, plan, fault)),
    }
}

/// Why a graph gives no waits, with the name of the step or the node. It is the want of memory where
/// memory was refused for the message.
fn waitless(alloc: Global, plan: &Plan, given: WaitsFault) -> Refusal
    ensures { (result.fault ≡ of_waits_fault given) ⊎ (result.fault ≡ Memory) }
{
    match given {
        WaitsFault::NoNode { step } => match lacks_step(alloc, plan, step) {
            Ok(line) => told(GraphRefusal::LacksStep(step), line),
            Err(_) => Refusal::of(RecordFault::Memory),
        },
        WaitsFault::Circle { node } => told(GraphRefusal::Circle, circle(alloc, node.as_str())),
        WaitsFault::TooMany => Refusal::of(RecordFault::Graph(GraphRefusal::TooManyWaits)),
        WaitsFault::Memory => Refusal::of(RecordFault::Memory),
    }
}

/// The refusal with this line, unless memory was refused for it.
fn told(why: GraphRefusal, line: MessageText) -> Refusal
    ensures { (result.fault ≡ RecordFault.Graph why) ⊎ (result.fault ≡ Memory) }
{
    if !line.is_whole() {
        return Refusal::of(RecordFault::Memory);
    }
    Refusal {
        fault: RecordFault::Graph(why),
        line: Some(line),
    }
}

/// The line about a step that has no node. `Err` where memory is refused.
fn lacks_step(alloc: Global, plan: &Plan, step: usize) -> Result<MessageText, AllocError> {
    let planned = planned_steps(alloc, plan)?;
    let mut line = MessageText::new(alloc);
    line.text("applystream: the graph has no node for the ");
    if let Some(step) = step_at(&planned, step) {
        push_step(&mut line, step);
    }
    line.text(
        ": is it that of this plan? terraform graph -plan=FILE prints it, before the plan is applied\n",
    );
    Ok(line)
}

/// The line about a circle through that node.
fn circle(alloc: Global, node: &str) -> MessageText {
    let mut line = MessageText::new(alloc);
    line.text("applystream: the graph goes in a circle through ");
    line.escaped(node.as_bytes());
    line.text("\n");
    line
}
