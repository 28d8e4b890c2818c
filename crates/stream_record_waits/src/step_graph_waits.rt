//! The waits of one step that a graph states.

ghost use Rattle.std.specs.Prelude.{◌≡◌, ◌+◌, ◌<◌, ◌≤◌, All, IfOk, OnOk, filter, length, ℕ};
ghost use Rattle.stream_record_waits.specs.Graph.{AreStepWaits, AreWaitsOf, waits_at};
ghost use Rattle.stream_record_waits.specs.Reached.{AreInOrder, IsLatest, is_early, is_wait, size_of};
ghost use Rattle.stream_record_waits.specs.Steps.{lists_in, step_at};

use crate::reached::Reached;
use crate::step_of_plan::StepOfPlan;
use crate::steps::{has_begun, is_done_before};
use std::alloc::{AllocError, Global};

/// The waits of one step, and the steps for which it began too early.
#[derive(Drop)]
pub struct StepGraphWaits {
    /// The steps that it waits for, in their order.
    pub after: Vec<usize>,
    /// The steps for which it began too early, in their order.
    pub early: Vec<usize>,
}

/// The waits of one step. `Err` where memory is refused.
pub(crate) fn step_graph_waits(
    alloc: Global,
    steps: &[StepOfPlan],
    graph: &[Vec<usize>],
    reached: &mut Reached,
    step: usize,
) -> Result<StepGraphWaits, AllocError>
    requires latest { IsLatest reached.old }
    requires size { size_of reached.old ≡ length steps.now }
    requires search { reached.old.search ≤ step }
    requires known { AreWaitsOf (length steps.now) (lists_in graph.now) }
    requires step { step < length steps.now }
    ensures latest { OnOk result (IsLatest reached.new) }
    ensures size { OnOk result (size_of reached.new ≡ length steps.now) }
    ensures search { OnOk result (reached.new.search ≤ step + 1) }
    ensures waits { IfOk result (λ waits. AreStepWaits steps.now (lists_in graph.now) step (step_at steps.now step).run waits.after.items waits.early.items) }
{
    match steps[step].run {
        Some(run) => {
            reached.search(steps, graph, step, run.line)?;
            let after = waits_among(alloc, steps, reached.steps.as_slice(), step, run.line)?;
            let early = early_among(alloc, steps, reached.steps.as_slice(), run.line)?;
            Ok(StepGraphWaits {
                after: in_order(after),
                early: in_order(early),
            })
        }
        None => Ok(StepGraphWaits {
            after: Vec::from_slice(alloc, graph[step].as_slice())?,
            early: Vec::new(alloc),
        }),
    }
}

/// The steps among those that a step reaches for which it waits.
fn waits_among(
    alloc: Global,
    steps: &[StepOfPlan],
    found: &[usize],
    step: usize,
    line: u64,
) -> Result<Vec<usize>, AllocError>
    requires { All (λ other. other < length steps.now) found.now }
    ensures { IfOk result (λ waits. waits.items ≡ filter (is_wait steps.now step line) found.now) }
{
    let mut waits = Vec::new(alloc);
    for other in found {
        if *other != step && is_done_before(steps, *other, line) {
            waits.push(*other)?;
        }
    }
    Ok(waits)
}

/// The steps among those that a step reaches for which it began too early.
fn early_among(
    alloc: Global,
    steps: &[StepOfPlan],
    found: &[usize],
    line: u64,
) -> Result<Vec<usize>, AllocError>
    requires { All (λ other. other < length steps.now) found.now }
    ensures { IfOk result (λ early. early.items ≡ filter (is_early steps.now line) found.now) }
{
    let mut early = Vec::new(alloc);
    for other in found {
        if has_begun(steps, *other) && !is_done_before(steps, *other, line) {
            early.push(*other)?;
        }
    }
    Ok(early)
}

/// The numbers in their order, each once.
fn in_order(numbers: Vec<usize>) -> Vec<usize>
    ensures { AreInOrder numbers.items result.items }
{
    let mut ordered = numbers;
    ordered.sort_unstable();
    ordered.dedup();
    ordered
}
