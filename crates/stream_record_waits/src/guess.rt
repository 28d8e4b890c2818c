//! The waits of steps without a graph.

ghost use Rattle.std.specs.Prelude.{◌≡◌, ◌<◌, IfOk, count_by, length, option_to_list, position};
ghost use Rattle.stream_record_waits.specs.Guess.{cause_of, first_without_graph, guessed_wait, wait_without_graph, waits_without_graph};
ghost use Rattle.stream_record_waits.specs.Steps.{has_failed, lists_in};

use crate::step_of_plan::StepOfPlan;
use crate::steps::{both_began, follows_at_once, has_begun, step_before};
use std::alloc::{AllocError, Global};

/// The waits of all steps. `Err` where memory is refused.
pub(crate) fn waits_without_graph(
    alloc: Global,
    steps: &[StepOfPlan],
    behind: &[Option<usize>],
    guesses: bool,
) -> Result<Vec<Vec<usize>>, AllocError>
    requires { length behind.now ≡ length steps.now }
    ensures { IfOk result (λ waits. lists_in waits.items ≡ waits_without_graph steps.now behind.now guesses) }
{
    let cause = cause_of(steps, guesses);
    let mut waits = Vec::new(alloc);
    for step in 0..steps.len() {
        let wait = wait_without_graph(steps, behind, cause, step);
        waits.push(list_of(alloc, wait)?)?;
    }
    Ok(waits)
}

/// The one step that failed.
fn cause_of(steps: &[StepOfPlan], guesses: bool) -> Option<usize>
    ensures { result ≡ cause_of steps.now guesses }
{
    if guesses && failure_count(steps) == 1 {
        first_failure(steps)
    } else {
        None
    }
}

/// How many steps failed.
fn failure_count(steps: &[StepOfPlan]) -> usize
    ensures { result ≡ count_by has_failed steps.now }
{
    steps.iter().filter(|step| step.has_failed()).count()
}

/// The first step that failed.
fn first_failure(steps: &[StepOfPlan]) -> Option<usize>
    ensures { result ≡ position has_failed steps.now }
{
    steps.iter().position(|step| step.has_failed())
}

/// The step that a step waits for.
fn wait_without_graph(
    steps: &[StepOfPlan],
    behind: &[Option<usize>],
    cause: Option<usize>,
    step: usize,
) -> Option<usize>
    requires behind { length behind.now ≡ length steps.now }
    requires step { step < length steps.now }
    ensures { result ≡ wait_without_graph steps.now behind.now cause step }
{
    if !has_begun(steps, step) {
        return guessed_wait(steps, cause, step);
    }
    if both_began(steps, step) && !follows_at_once(steps, step) {
        behind[step]
    } else {
        None
    }
}

/// The step that failed, for the first step that did not begin in its change.
fn guessed_wait(steps: &[StepOfPlan], cause: Option<usize>, step: usize) -> Option<usize>
    requires { step < length steps.now }
    ensures { result ≡ guessed_wait steps.now cause step }
{
    let failed = cause?;
    match step_before(steps, step) {
        Some(before) => {
            if has_begun(steps, before) && failed != before {
                Some(failed)
            } else {
                None
            }
        }
        None => Some(failed),
    }
}

/// A list of the number, if there is one.
fn list_of(alloc: Global, number: Option<usize>) -> Result<Vec<usize>, AllocError>
    ensures { IfOk result (λ list. list.items ≡ option_to_list number) }
{
    let mut list = Vec::new(alloc);
    if let Some(number) = number {
        list.push(number)?;
    }
    Ok(list)
}
