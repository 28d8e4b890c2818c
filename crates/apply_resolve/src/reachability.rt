//! Finds steps of a script that can never begin, because they wait for each other.
//!
//! The search goes along a path of steps. Each step on the path waits for the next one. Each step
//! is searched once, and its result is stored. Every `Err` means that memory was refused.

ghost use Rattle.std.specs.Prelude.{◌≡◌, ◌<◌, ◌≤◌, All, IfOk, OnSome, length, map, slice_get};
ghost use Rattle.std.specs.List.{position_from};
ghost use Rattle.apply_model.specs.Script.Limits.{max_waits};
ghost use Rattle.apply_model.specs.Script.Waits.{could_begin, named_for, stated_waits};
ghost use Rattle.apply_resolve.specs.VisitStates.{AreSettled, index_of, with_unreachable};
ghost use Rattle.apply_resolve.specs.Placed.{AreAllPlaced, IsPlaced};
ghost use Rattle.apply_resolve.specs.Unreachable.{is_unreachable_at, numbers_from};

use crate::visit_state::VisitState;
use crate::visit_states::VisitStates;
use apply_model::{Script, Wait};
use std::alloc::{AllocError, Global};

/// A step on the path. It waits for the next step on the path.
#[derive(Clone, Copy)]
struct Visit {
    /// The step.
    step: Wait,
    /// How many of the step's waits are known to begin, counted from the first.
    passed: u32,
}

/// The position of the first entry with a step that can never begin. An entry is the number of a
/// change and how many of its first steps count. `None` where there is no such entry. `Err` where
/// memory is refused.
pub fn first_unreachable(
    alloc: Global,
    script: &Script,
    changes: u32,
    entries: &[(u32, u8)],
) -> Result<Option<u32>, AllocError>
    requires changes { changes ≡ length script.now }
    requires placed { AreAllPlaced script.now }
    requires few { length entries.now ≤ length script.now }
    requires within { All (λ entry. (entry.0 < length script.now) × (entry.1 ≤ 2)) entries.now }
    ensures { IfOk result (λ answer. answer ≡ position_from (is_unreachable_at script.now) 0 entries.now) }
{
    let mut states = VisitStates::new(alloc, changes)?;
    for (number, (change, steps)) in entries.iter().enumerate() {
        if is_unreachable(alloc, script, &mut states, *change, *steps)? {
            return Ok(Some(number as u32));
        }
    }
    Ok(None)
}

/// The positions of all entries with a step that can never begin, in order. An entry is the number
/// of a change and how many of its first steps count. `Err` where memory is refused.
pub fn all_unreachable(
    alloc: Global,
    script: &Script,
    changes: u32,
    entries: &[(u32, u8)],
) -> Result<Vec<u32>, AllocError>
    requires changes { changes ≡ length script.now }
    requires placed { AreAllPlaced script.now }
    requires few { length entries.now ≤ length script.now }
    requires within { All (λ entry. (entry.0 < length script.now) × (entry.1 ≤ 2)) entries.now }
    ensures { IfOk result (λ answer. answer.items ≡ numbers_from 0 (is_unreachable_at script.now) entries.now) }
{
    let mut states = VisitStates::new(alloc, changes)?;
    let mut unreachable = Vec::new(alloc);
    for (number, (change, steps)) in entries.iter().enumerate() {
        if is_unreachable(alloc, script, &mut states, *change, *steps)? {
            unreachable.push(number as u32)?;
        }
    }
    Ok(unreachable)
}

/// Whether one of the first `steps` steps of the change can never begin.
fn is_unreachable(
    alloc: Global,
    script: &Script,
    states: &mut VisitStates,
    change: u32,
    steps: u8,
) -> Result<bool, AllocError>
    requires placed { AreAllPlaced script.now }
    requires settled { AreSettled script.now states.old }
    requires change { change < length script.now }
    requires steps { steps ≤ 2 }
    ensures answer { IfOk result (λ unreachable. unreachable ≡ is_unreachable_at script.now (change, steps)) }
    ensures settled { IfOk result (λ _. AreSettled script.now states.new) }
{
    for step in 0..steps {
        if !could_begin(alloc, script, states, Wait { change, step })? {
            return Ok(true);
        }
    }
    Ok(false)
}

/// Whether the step could begin. The states of all steps that this search decides are stored.
fn could_begin(
    alloc: Global,
    script: &Script,
    states: &mut VisitStates,
    step: Wait,
) -> Result<bool, AllocError>
    requires placed { AreAllPlaced script.now }
    requires settled { AreSettled script.now states.old }
    requires step { IsPlaced (length script.now) step }
    ensures answer { IfOk result (λ begins. begins ≡ could_begin script.now step.change step.step) }
    ensures settled { IfOk result (λ _. AreSettled script.now states.new) }
{
    match states.get(step) {
        VisitState::Begins => return Ok(true),
        VisitState::Unreachable => return Ok(false),
        VisitState::Unseen | VisitState::OnPath => {}
    }
    let mut path = Vec::new(alloc);
    path.push(Visit { step, passed: 0 })?;
    states.set(step, VisitState::OnPath);
    while let Some(visit) = path.pop() {
        let Some(next) = wait_at(script, visit.step, visit.passed) else {
            states.set(visit.step, VisitState::Begins);
            continue;
        };
        match states.get(next) {
            VisitState::OnPath | VisitState::Unreachable => {
                states.set(visit.step, VisitState::Unreachable);
                set_unreachable(states, &path);
                return Ok(false);
            }
            VisitState::Begins => {
                path.push(Visit {
                    step: visit.step,
                    passed: visit.passed + 1,
                })?;
            }
            VisitState::Unseen => {
                states.set(next, VisitState::OnPath);
                path.push(visit)?;
                path.push(Visit {
                    step: next,
                    passed: 0,
                })?;
            }
        }
    }
    Ok(true)
}

/// Sets the state of each step on the path: none of them can ever begin.
fn set_unreachable(states: &mut VisitStates, path: &[Visit])
    requires { All (λ visit. index_of visit.step < length states.old) path.now }
    ensures { states.new ≡ with_unreachable states.old (map (λ visit. visit.step) path.now) }
{
    for visit in path {
        states.set(visit.step, VisitState::Unreachable);
    }
}

/// The step at that position among the waits of a step: first the step before it in its change,
/// then the steps that the script names. It makes no difference whether the step is skipped.
fn wait_at(script: &Script, step: Wait, number: u32) -> Option<Wait>
    ensures answer { result ≡ slice_get (stated_waits script.now step.change step.step) number }
    ensures few { OnSome result (number ≤ max_waits) }
{
    if step.step == 0 {
        return named_wait_at(script, step, number);
    }
    if number > 0 {
        return named_wait_at(script, step, number - 1);
    }
    Some(Wait {
        change: step.change,
        step: step.step - 1,
    })
}

/// The step at that position among the steps that the script names for a step.
fn named_wait_at(script: &Script, step: Wait, number: u32) -> Option<Wait>
    ensures answer { result ≡ slice_get (named_for script.now step.change step.step) number }
    ensures few { OnSome result (number < max_waits) }
{
    let after = script.after(step.change, step.step)?;
    if number < after.len() {
        Some(after.get(number))
    } else {
        None
    }
}
