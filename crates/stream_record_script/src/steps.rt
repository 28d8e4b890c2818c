//! The steps of a recorded script.
//!
//! Every `Err` means that memory was refused.

ghost use Rattle.std.specs.Prelude.{◌≡◌, ◌≤◌, ◌++◌, [], IfOk, OnOk, length, map, sum_by};
ghost use Rattle.apply_model.specs.Script.Limits.{max_waits};
ghost use Rattle.stream_record.specs.EvenScript.{steps_at, waits_at};
ghost use Rattle.stream_record_script.specs.Steps.{by_change, first_steps, other_steps, script_of, script_step, script_steps};

use apply_model::{Outcome, Plan, ScriptStep, StepKind, StepOutcomes, Wait, Waits};
use std::alloc::{AllocError, Global};
use std::collections::VecDeque;
use stream_record::{even_step, planned_steps, steps_at};
use stream_record_outcomes::RecordedStep;
use stream_record_waits::StepState;

/// The steps of the script of that plan, an item for each change.
///
/// `recorded` and `states` have an item for each step of the plan, and `waits` the numbers of the
/// steps that it waits for, of which there are at most 1,000,000.
pub fn script_of(
    alloc: Global,
    plan: &Plan,
    recorded: Vec<Option<RecordedStep>>,
    states: &[StepState],
    waits: &[Vec<usize>],
) -> Result<Vec<Option<StepOutcomes>>, AllocError>
    requires { sum_by length (map (λ numbers. numbers.items) waits.now) ≤ max_waits }
    ensures { IfOk result (λ script. script.items
        ≡ script_of plan.now.changes recorded.items states.now (map (λ numbers. numbers.items) waits.now)) }
{
    let planned = planned_steps(alloc, plan)?;
    let steps = script_steps(alloc, &planned, waits, recorded, states)?;
    by_change(alloc, plan, steps)
}

/// The steps one after another.
fn script_steps(
    alloc: Global,
    planned: &[Wait],
    waits: &[Vec<usize>],
    recorded: Vec<Option<RecordedStep>>,
    states: &[StepState],
) -> Result<VecDeque<Option<ScriptStep>>, AllocError>
    requires { sum_by length (map (λ numbers. numbers.items) waits.now) ≤ max_waits }
    ensures { IfOk result (λ steps. steps.items
        ≡ script_steps planned.now (map (λ numbers. numbers.items) waits.now) 0 recorded.items states.now) }
{
    let mut steps = VecDeque::new(alloc);
    let mut left = VecDeque::from_vec(recorded);
    for (place, state) in states.iter().enumerate() {
        let Some(found) = left.pop_front() else {
            break;
        };
        let after = steps_at(alloc, planned, waits_at(waits, place))?;
        steps.push_back(script_step(alloc, *state, found, after))?;
    }
    Ok(steps)
}

/// The numbers of the steps that the step of this number waits for.
fn waits_at(waits: &[Vec<usize>], number: usize) -> &[usize]
    ensures { result.now ≡ waits_at (map (λ numbers. numbers.items) waits.now) number }
{
    match waits.get(number) {
        Some(numbers) => numbers.as_slice(),
        None => &[],
    }
}

/// A step that waits for these steps. `None` where the script leaves it out.
fn script_step(
    alloc: Global,
    state: StepState,
    found: Option<RecordedStep>,
    after: Vec<Wait>,
) -> Option<ScriptStep>
    requires { length after.items ≤ max_waits }
    ensures { result ≡ script_step state found after.items }
{
    match state {
        StepState::Began => match found {
            Some(found) => Some(answered(found, after)),
            None => None,
        },
        StepState::Answered => Some(even_step(alloc, after)),
        StepState::Skipped => Some(ScriptStep::Skipped {
            after: Waits::new(after),
        }),
        StepState::Absent => None,
    }
}

/// A step that began, and waits for these steps.
fn answered(found: RecordedStep, after: Vec<Wait>) -> ScriptStep
    requires { length after.items ≤ max_waits }
    ensures { result ≡ ScriptStep.Answered (record found.outcome { after = after.items }) }
{
    let RecordedStep { outcome, .. } = found;
    let Outcome {
        seconds,
        provisioners,
        result,
        after: _,
    } = outcome;
    ScriptStep::Answered(Outcome {
        seconds,
        provisioners,
        result,
        after: Waits::new(after),
    })
}

/// The steps change by change.
fn by_change(
    alloc: Global,
    plan: &Plan,
    mut steps: VecDeque<Option<ScriptStep>>,
) -> Result<Vec<Option<StepOutcomes>>, AllocError>
    ensures { IfOk result (λ script. script.items ≡ by_change plan.now.changes steps.items) }
{
    let mut script = Vec::new(alloc);
    for number in 0..plan.len() {
        let first = first_steps(alloc, plan.change(number).steps(), &mut steps)?;
        script.push(Some(StepOutcomes::new(first)))?;
    }
    Ok(script)
}

/// Takes the steps of a change with steps of these kinds.
fn first_steps(
    alloc: Global,
    kinds: &[StepKind],
    steps: &mut VecDeque<Option<ScriptStep>>,
) -> Result<Vec<ScriptStep>, AllocError>
    ensures first { IfOk result (λ first. first.items ≡ first_steps kinds.now steps.old.items) }
    ensures others { OnOk result (steps.new.items ≡ other_steps kinds.now steps.old.items) }
{
    let mut first = Vec::new(alloc);
    for _kind in kinds {
        if let Some(step) = steps.pop_front().flatten() {
            first.push(step)?;
        }
    }
    Ok(first)
}
