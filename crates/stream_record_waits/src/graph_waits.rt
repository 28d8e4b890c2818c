//! The waits of steps that a graph states.

ghost use Rattle.std.specs.Prelude.{◌≡◌, ◌≢◌, ◌≤◌, IfErr, IfOk, Some, length};
ghost use Rattle.stream_record_waits.specs.declared.choices.Choices.{Choices};
ghost use Rattle.stream_record_waits.specs.declared.waits_fault.WaitsFault.TheVariants.{Memory};
ghost use Rattle.stream_record_waits.specs.Graph.{AreFirstWaits, AreWaitsOf, count_of};
ghost use Rattle.stream_record_waits.specs.Recorded.{HasTooMany, max_waits};
ghost use Rattle.stream_record_waits.specs.Steps.{lists_in};

use crate::found_waits::FoundWaits;
use crate::limits::MAX_WAITS;
use crate::reached::Reached;
use crate::step_graph_waits::step_graph_waits;
use crate::step_of_plan::StepOfPlan;
use crate::waits_fault::WaitsFault;
use std::alloc::Global;

/// The waits of all steps. `Err` where there are too many, or memory is refused.
pub(crate) fn graph_waits(
    alloc: Global,
    steps: &[StepOfPlan],
    graph: &[Vec<usize>],
) -> Result<FoundWaits, WaitsFault>
    requires { AreWaitsOf (length steps.now) (lists_in graph.now) }
    ensures ok { IfOk result (λ waits. AreFirstWaits steps.now (lists_in graph.now) (length steps.now) (lists_in waits.after.items) (lists_in waits.early.items)) }
    ensures few { IfOk result (λ waits. count_of (lists_in waits.after.items) (lists_in waits.early.items) ≤ max_waits) }
    ensures err { IfErr result (λ fault. fault ≢ Memory → (choices : Choices) → HasTooMany steps.now (Some (lists_in graph.now)) choices) }
{
    let mut reached = Reached::new(alloc, steps.len())?;
    let mut after = Vec::new(alloc);
    let mut early = Vec::new(alloc);
    let mut count = 0;
    for step in 0..steps.len() {
        let waits = step_graph_waits(alloc, steps, graph, &mut reached, step)?;
        let waits_len = waits.after.len();
        if waits_len > MAX_WAITS - count {
            return Err(WaitsFault::TooMany);
        }
        let early_len = waits.early.len();
        if early_len > MAX_WAITS - count - waits_len {
            return Err(WaitsFault::TooMany);
        }
        count += waits_len + early_len;
        after.push(waits.after)?;
        early.push(waits.early)?;
    }
    Ok(FoundWaits { after, early })
}
