//! What is known of the steps of a plan.

ghost use Rattle.std.specs.Prelude.{◌≡◌, ◌<◌, length, option_and_then};
ghost use Rattle.stream_record_waits.specs.Steps.{are_same, both_began, follows_at_once, has_begun, is_done_before, step_at, step_before};

use crate::step_of_plan::StepOfPlan;

/// The number of the step before that step in its change.
pub(crate) fn step_before(steps: &[StepOfPlan], step: usize) -> Option<usize>
    requires { step < length steps.now }
    ensures { result ≡ step_before steps.now step }
{
    if step == 0 || steps[step].is_first {
        None
    } else {
        Some(step - 1)
    }
}

/// Whether the step was done before that line.
pub(crate) fn is_done_before(steps: &[StepOfPlan], step: usize, line: u64) -> bool
    requires { step < length steps.now }
    ensures { result ≡ is_done_before steps.now step line }
{
    match steps[step].run {
        Some(run) => match run.done_line() {
            Some(done) => done < line,
            None => false,
        },
        None => false,
    }
}

/// Whether the step began.
pub(crate) fn has_begun(steps: &[StepOfPlan], step: usize) -> bool
    requires { step < length steps.now }
    ensures { result ≡ has_begun steps.now step }
{
    steps[step].has_begun()
}

/// Whether the step and the step before it in its change both began.
pub(crate) fn both_began(steps: &[StepOfPlan], step: usize) -> bool
    requires { step < length steps.now }
    ensures { result ≡ both_began steps.now step }
{
    match step_before(steps, step) {
        Some(before) => has_begun(steps, step) && has_begun(steps, before),
        None => false,
    }
}

/// Whether both numbers are there and the same.
pub(crate) fn are_same(first: Option<u64>, second: Option<u64>) -> bool
    ensures { result ≡ are_same first second }
{
    match (first, second) {
        (Some(a), Some(b)) => a == b,
        _ => false,
    }
}

/// Whether the message about a step before the start of this one is the end of the step before it
/// in its change.
pub(crate) fn follows_at_once(steps: &[StepOfPlan], step: usize) -> bool
    requires { step < length steps.now }
    ensures { result ≡ follows_at_once steps.now step }
{
    are_same(previous_of(steps, step), end_before(steps, step))
}

/// The line of the message about a step before the start of this one.
fn previous_of(steps: &[StepOfPlan], step: usize) -> Option<u64>
    requires { step < length steps.now }
    ensures { result ≡ option_and_then (λ run. run.previous) (step_at steps.now step).run }
{
    steps[step].run?.previous
}

/// The line of the end of the step before this one in its change.
fn end_before(steps: &[StepOfPlan], step: usize) -> Option<u64>
    requires { step < length steps.now }
    ensures { result ≡ option_and_then (λ before. option_and_then (λ run. run.end) (step_at steps.now before).run) (step_before steps.now step) }
{
    let before = step_before(steps, step)?;
    steps[before].run?.end
}
