//! Resolves an entry: finds its change and the steps that it waits for, and checks it.

ghost use Rattle.std.specs.Prelude.{◌≡◌, ◌+◌, ◌<◌, ◌≤◌, find, is_some, length, map, option_map, All, IfOk, IfSome};
ghost use Rattle.std.specs.List.{enumerate_from};
ghost use Rattle.serde_json.specs.Data.{Data};
ghost use Rattle.apply_model.specs.Script.Limits.{max_waits};
ghost use Rattle.apply_model.specs.Script.Outcome.{IsBounded};
ghost use Rattle.apply_model.specs.Script.Step.{after_of};
ghost use Rattle.apply_plan.specs.Results.{Gives};
ghost use Rattle.apply_resolve.specs.ObjectIds.{is_of};
ghost use Rattle.apply_resolve.specs.ChangeNumbers.{number_of};
ghost use Rattle.apply_plan.specs.Script.Entry.{entry_of};
ghost use Rattle.apply_plan.specs.Script.NextEntry.{resolved_next, steps_or_fault, resolved_view};
ghost use Rattle.apply_resolve.specs.Placed.{ArePlaced, IsPlaced};
ghost use Rattle.apply_plan.specs.Script.RawView.{entry_step_view, entry_view, step_view, raw_waits};

use crate::script::raw_entry::RawEntry;
use crate::script::raw_step::RawStep;
use crate::script::script_error::ScriptError;
use crate::script::waited::Waited;
use apply_model::{Change, MAX_WAITS, Plan, StepOutcomes};
use apply_resolve::{ChangeNumbers, ObjectId};
use std::alloc::Global;

/// Resolves entry `number`. `Ok` is the number of its change, its outcomes, and how many items its
/// `after` lists have.
///
/// `earlier` counts the `after` items of the entries before it, and `outcomes` has their outcomes.
/// `None` stands for a malformed entry. `Err` is the first fault of the entry, or
/// `ScriptError::Memory`.
pub fn resolve_entry<'a>(
    alloc: Global,
    number: u32,
    earlier: usize,
    entry: &Option<RawEntry<'a>>,
    plan: &Plan,
    numbers: &ChangeNumbers<'a>,
    outcomes: &[Option<StepOutcomes>],
) -> Result<(u32, StepOutcomes, usize), ScriptError>
    requires earlier { earlier ≤ max_waits }
    requires numbers { (id : _) → number_of numbers.now id
        ≡ option_map (λ p. p.0) (find (λ p. is_of id p.1) (enumerate_from 0 plan.now.changes)) }
    requires outcomes { length outcomes.now ≡ length plan.now.changes }
    ensures defined { (d : Data) → option_map entry_view entry.now ≡ entry_of d → Gives ScriptError.Memory resolved_view result
        (resolved_next plan.now.changes outcomes.now earlier number d) }
    ensures within { IfOk result (λ entry. entry.0 < length outcomes.now) }
    ensures placed { IfOk result (λ entry. ArePlaced (length outcomes.now) entry.1) }
    ensures few { IfOk result (λ entry. earlier + entry.2 ≤ max_waits) }
{
    let Some(entry) = entry else {
        return Err(ScriptError::BadShape(Some(number)));
    };
    let id = ObjectId {
        address: entry.address,
        deposed: entry.deposed,
    };
    let Some(change) = numbers.get(id) else {
        return Err(ScriptError::UnknownChange(number));
    };
    if outcomes[change as usize].is_some() {
        return Err(ScriptError::Duplicate(number));
    }
    let known = plan.change(change);
    if let Some(fault) = entry.fault(number, is_deposed(known), known.steps()) {
        return Err(fault);
    }
    let Some(waits) = entry.count_of_waits(MAX_WAITS - earlier) else {
        return Err(ScriptError::TooManyWaits(number));
    };
    let steps = resolve_steps(alloc, number, &entry.steps, plan, numbers)?;
    Ok((change, steps, waits))
}

/// Whether the change is for a deposed object.
fn is_deposed(change: &Change) -> bool
    ensures { result ≡ is_some change.now.deposed }
{
    change.deposed().is_some()
}

/// Resolves the steps of entry `number`, with the steps that they wait for.
///
/// `Err` is `UnknownWait`, `NoSuchStep` or `Memory`.
fn resolve_steps<'a>(
    alloc: Global,
    number: u32,
    steps: &[RawStep<'a>],
    plan: &Plan,
    numbers: &ChangeNumbers<'a>,
) -> Result<StepOutcomes, ScriptError>
    requires bounded { All (λ outcome. IfSome outcome IsBounded) (map step_view steps.now) }
    requires few { raw_waits steps.now ≤ max_waits }
    requires numbers { (id : _) → number_of numbers.now id
        ≡ option_map (λ p. p.0) (find (λ p. is_of id p.1) (enumerate_from 0 plan.now.changes)) }
    ensures defined { Gives ScriptError.Memory (λ outcomes. outcomes) result
        (steps_or_fault number plan.now.changes (map entry_step_view steps.now)) }
    ensures placed { IfOk result (λ outcomes. All (λ step. All (IsPlaced (length plan.now.changes)) (after_of step)) outcomes) }
{
    let mut outcomes = Vec::with_capacity(alloc, steps.len())?;
    let mut lacks_step = false;
    for step in steps {
        let Some(waited) = Waited::of(alloc, &step.after, plan, numbers)? else {
            return Err(ScriptError::UnknownWait(number));
        };
        lacks_step = lacks_step || waited.lacks_step;
        outcomes.push(step.copied(alloc, waited.waits)?)?;
    }
    if lacks_step {
        return Err(ScriptError::NoSuchStep(number));
    }
    Ok(StepOutcomes::new(outcomes))
}
