//! The step behind which each step begins in a stream.

ghost use Rattle.std.specs.Prelude.{◌≡◌, IfOk, length, option_and_then};
ghost use Rattle.std.specs.List.Sorted.{IsNonDecreasingBy};
ghost use Rattle.stream_record_waits.specs.Behind.{AreBehind};
ghost use Rattle.stream_record_waits.specs.Ends.{AreEnds, IsEndBefore};
ghost use Rattle.stream_record_waits.specs.Steps.{completion};

use crate::step_of_plan::StepOfPlan;
use std::alloc::{AllocError, Global};

/// For each step that began, the step that completed last before it began. `Err` where memory is
/// refused.
pub(crate) fn steps_behind(
    alloc: Global,
    steps: &[StepOfPlan],
) -> Result<Vec<Option<usize>>, AllocError>
    ensures { IfOk result (λ behind. AreBehind steps.now behind.items) }
{
    let mut ends = ends_of(alloc, steps)?;
    ends.sort_unstable_by_key(|end| end.0);
    let mut behind = Vec::with_capacity(alloc, steps.len())?;
    for step in 0..steps.len() {
        behind.push(last_before(ends.as_slice(), steps[step]))?;
    }
    Ok(behind)
}

/// The ends of the steps that completed: the line, and the step.
fn ends_of(alloc: Global, steps: &[StepOfPlan]) -> Result<Vec<(u64, usize)>, AllocError>
    ensures { IfOk result (λ ends. AreEnds steps.now (length steps.now) ends.items) }
{
    let mut ends = Vec::new(alloc);
    for step in 0..steps.len() {
        if let Some(line) = completion(steps[step]) {
            ends.push((line, step))?;
        }
    }
    Ok(ends)
}

/// The line of the end of a step that completed.
fn completion(step: StepOfPlan) -> Option<u64>
    ensures { result ≡ option_and_then completion step.run }
{
    step.run?.completion()
}

/// The step of the last of these ends before the start of a step.
fn last_before(ends: &[(u64, usize)], step: StepOfPlan) -> Option<usize>
    requires { IsNonDecreasingBy (λ end. end.0) ends.now }
    ensures { IsEndBefore ends.now step.run result }
{
    let run = step.run?;
    let count = ends.partition_point(|end| end.0 < run.line);
    if count == 0 {
        None
    } else {
        Some(ends[count - 1].1)
    }
}
