//! The script in which each step of a plan takes a second.
//!
//! Every `Err` means that memory was refused.

ghost use Rattle.std.specs.Prelude.{◌≡◌, ◌≤◌, IfOk, length, map, slice_get, sum_by};
ghost use Rattle.apply_model.specs.Script.Limits.{max_waits};
ghost use Rattle.stream_record.specs.EvenScript.{even_script, even_step, even_steps, steps_at, waits_at};

use crate::planned::planned_steps;
use apply_model::{
    Ending, Outcome, Plan, Provisioners, ScriptStep, StepKind, StepOutcomes, Wait, Waits,
};
use std::alloc::{AllocError, Global};

/// The script in which each step of the plan takes a second: an item for each change.
///
/// The list `waits` has for each step of the plan, in the plan's order, the numbers of the steps
/// that it waits for; these count from 0 in that order. A step without a list waits for none.
/// Numbers of no step are ignored. A caller has to give at most 1,000,000 numbers.
pub fn even_script(
    alloc: Global,
    plan: &Plan,
    waits: &[Vec<usize>],
) -> Result<Vec<Option<StepOutcomes>>, AllocError>
    requires { sum_by length (map (λ numbers. numbers.items) waits.now) ≤ max_waits }
    ensures { IfOk result (λ script. script.items ≡ even_script plan.now.changes (map (λ numbers. numbers.items) waits.now)) }
{
    let planned = planned_steps(alloc, plan)?;
    let mut changes = Vec::new(alloc);
    let mut first = 0;
    for number in 0..plan.len() {
        let kinds = plan.change(number).steps();
        let steps = even_steps(alloc, &planned, waits, first, kinds)?;
        changes.push(Some(StepOutcomes::new(steps)))?;
        first += kinds.len();
    }
    Ok(changes)
}

/// As many steps as there are kinds, of which the first has the number `first` in the plan.
fn even_steps(
    alloc: Global,
    planned: &[Wait],
    waits: &[Vec<usize>],
    first: usize,
    kinds: &[StepKind],
) -> Result<Vec<ScriptStep>, AllocError>
    requires few { sum_by length (map (λ numbers. numbers.items) waits.now) ≤ max_waits }
    requires low { first ≤ 20000 }
    ensures { IfOk result (λ steps. steps.items
        ≡ even_steps planned.now (map (λ numbers. numbers.items) waits.now) first kinds.now) }
{
    let mut steps = Vec::new(alloc);
    for step in 0..kinds.len() {
        let after = steps_at(alloc, planned, waits_at(waits, first + step))?;
        steps.push(even_step(alloc, after))?;
    }
    Ok(steps)
}

/// The numbers of the steps that the step of this number waits for.
fn waits_at(waits: &[Vec<usize>], number: usize) -> &[usize]
    ensures { result.now ≡ waits_at (map (λ numbers. numbers.items) waits.now) number }
{
    match waits.get(number) {
        Some(numbers) => numbers.as_slice(),
        None => &[],
    }
}

/// The steps with these numbers, of all steps of a plan. Numbers of no step are ignored.
pub fn steps_at(alloc: Global, planned: &[Wait], numbers: &[usize]) -> Result<Vec<Wait>, AllocError>
    ensures { IfOk result (λ steps. steps.items ≡ steps_at planned.now numbers.now) }
{
    numbers
        .iter()
        .filter_map(|number| step_at(planned, *number))
        .collect(alloc)
}

/// The step of this number, if there is one.
fn step_at(planned: &[Wait], number: usize) -> Option<Wait>
    ensures { result ≡ slice_get planned.now number }
{
    planned.get(number).copied()
}

/// A step that takes a second and waits for these steps.
pub fn even_step(alloc: Global, after: Vec<Wait>) -> ScriptStep
    requires { length after.items ≤ max_waits }
    ensures { result ≡ even_step after.items }
{
    ScriptStep::Answered(Outcome {
        seconds: 1,
        provisioners: Provisioners::new(Vec::new(alloc)),
        result: Ending::Done {
            id: None,
            warning: None,
        },
        after: Waits::new(after),
    })
}
