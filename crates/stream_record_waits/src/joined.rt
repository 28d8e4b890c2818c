//! Which steps run in one turn with the step before them in their change.

ghost use Rattle.std.specs.Prelude.{◌≡◌, ◌==◌, ◌&&◌, ◌<◌, IfOk, length};
ghost use Rattle.stream_record_waits.specs.Joined.{joined_by_graph, joined_by_lines};
ghost use Rattle.stream_record_waits.specs.Steps.{both_began, follows_at_once, lists_in};

use crate::step_of_plan::StepOfPlan;
use crate::steps::{both_began, follows_at_once};
use std::alloc::{AllocError, Global};

/// With a graph, the steps that wait for no other. `Err` where memory is refused.
pub(crate) fn joined_by_graph(
    alloc: Global,
    steps: &[StepOfPlan],
    after: &[Vec<usize>],
) -> Result<Vec<bool>, AllocError>
    requires { length after.now ≡ length steps.now }
    ensures { IfOk result (λ joined. joined.items ≡ joined_by_graph steps.now (lists_in after.now) (length steps.now)) }
{
    let mut joined = Vec::with_capacity(alloc, steps.len())?;
    for step in 0..steps.len() {
        let is_joined = waits_for_none(steps, step, after[step].as_slice());
        joined.push(is_joined)?;
    }
    Ok(joined)
}

/// Without a graph, the steps that follow the step before them at once. `Err` where memory is
/// refused.
pub(crate) fn joined_by_lines(alloc: Global, steps: &[StepOfPlan]) -> Result<Vec<bool>, AllocError>
    ensures { IfOk result (λ joined. joined.items ≡ joined_by_lines steps.now (length steps.now)) }
{
    let mut joined = Vec::with_capacity(alloc, steps.len())?;
    for step in 0..steps.len() {
        let is_joined = follows_on(steps, step);
        joined.push(is_joined)?;
    }
    Ok(joined)
}

/// Whether a step waits for no other, and it and the step before it in its change began.
fn waits_for_none(steps: &[StepOfPlan], step: usize, waits: &[usize]) -> bool
    requires { step < length steps.now }
    ensures { result ≡ (both_began steps.now step && length waits.now == 0) }
{
    both_began(steps, step) && waits.is_empty()
}

/// Whether a step follows the step before it in its change at once, and both began.
fn follows_on(steps: &[StepOfPlan], step: usize) -> bool
    requires { step < length steps.now }
    ensures { result ≡ (both_began steps.now step && follows_at_once steps.now step) }
{
    both_began(steps, step) && follows_at_once(steps, step)
}
