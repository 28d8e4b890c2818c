//! How a recorded script states each step.

ghost use Rattle.std.specs.Prelude.{◌≡◌, ◌<◌, All, IfOk, length};
ghost use Rattle.stream_record_waits.specs.Graph.{AreWaitsOf, waits_at};
ghost use Rattle.stream_record_waits.specs.States.{ends_change, first_states, has_ended, holds_up, is_explained, state_of, states_of};
ghost use Rattle.stream_record_waits.specs.Steps.{lists_in};

use crate::step_of_plan::StepOfPlan;
use crate::step_state::StepState;
use crate::steps::{has_begun, step_before};
use std::alloc::{AllocError, Global};

/// The states of all steps. `Err` where memory is refused.
pub(crate) fn states_of(
    alloc: Global,
    steps: &[StepOfPlan],
    after: &[Vec<usize>],
) -> Result<Vec<StepState>, AllocError>
    requires { AreWaitsOf (length steps.now) (lists_in after.now) }
    ensures { IfOk result (λ states. states.items ≡ states_of steps.now (lists_in after.now)) }
{
    let mut states: Vec<StepState> = Vec::with_capacity(alloc, steps.len())?;
    for step in 0..steps.len() {
        let has_ended = has_ended(steps, states.as_slice(), step);
        let state = state_of(steps, after[step].as_slice(), step, has_ended);
        states.push(state)?;
    }
    Ok(states)
}

/// Whether the change of the step has ended before it, by the states of the steps before.
fn has_ended(steps: &[StepOfPlan], states: &[StepState], step: usize) -> bool
    requires step { step < length steps.now }
    requires states { length states.now ≡ step }
    ensures { result ≡ has_ended steps.now states.now step }
{
    step > 0 && !steps[step].is_first && states[step - 1].ends_change()
}

impl StepState {
    /// Whether a change ends with a step in this state.
    fn ends_change(self) -> bool
        ensures { result ≡ ends_change self }
    {
        match self {
            StepState::Began => false,
            StepState::Answered => false,
            StepState::Skipped => true,
            StepState::Absent => true,
        }
    }
}

/// The state of a step, where its change has ended before it, or has not.
fn state_of(steps: &[StepOfPlan], after: &[usize], step: usize, has_ended: bool) -> StepState
    requires step { step < length steps.now }
    requires after { All (λ other. other < length steps.now) after.now }
    ensures { result ≡ state_of steps.now after.now step has_ended }
{
    if has_ended {
        StepState::Absent
    } else if has_begun(steps, step) {
        StepState::Began
    } else if is_explained(steps, after, step) {
        StepState::Answered
    } else {
        StepState::Skipped
    }
}

/// Whether the step waits for one that failed or did not begin.
fn is_explained(steps: &[StepOfPlan], after: &[usize], step: usize) -> bool
    requires step { step < length steps.now }
    requires after { All (λ other. other < length steps.now) after.now }
    ensures { result ≡ is_explained steps.now after.now step }
{
    if let Some(before) = step_before(steps, step) {
        if holds_up(steps, before) {
            return true;
        }
    }
    for other in after {
        if holds_up(steps, *other) {
            return true;
        }
    }
    false
}

/// Whether the step failed or did not begin.
fn holds_up(steps: &[StepOfPlan], step: usize) -> bool
    requires { step < length steps.now }
    ensures { result ≡ holds_up steps.now step }
{
    !steps[step].has_begun() || steps[step].has_failed()
}
