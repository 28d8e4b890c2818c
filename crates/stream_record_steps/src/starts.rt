//! Which step of the plan a start takes.

ghost use Rattle.std.specs.Prelude.{◌≡◌};
ghost use Rattle.std.specs.Option.{option_copied};
ghost use Rattle.stream_record_steps.specs.Starts.{goes_well, had_id, is_failed, is_free, may_begin, taken_place};

use crate::begun_step::{BegunStep, EndResult};
use crate::kinds::is_kind;
use crate::planned_step::PlannedStep;
use crate::slots::Slots;
use apply_model::StepKind;

/// The place of the step among these that a start takes: of those that it may take, the first whose
/// object had that id, else the first.
pub fn taken_place(
    slots: &Slots,
    kind: StepKind,
    id: Option<&str>,
    steps: &[PlannedStep<'_>],
) -> Option<usize>
    ensures { result ≡ taken_place slots.now kind (option_copied id.entry) steps.now }
{
    let mut first = None;
    for step in steps {
        if is_free(slots, kind, step) {
            if had_id(id, step) {
                return Some(step.place());
            }
            first = first.or(Some(step.place()));
        }
    }
    first
}

/// Whether a start of this kind may take the step.
fn is_free(slots: &Slots, kind: StepKind, step: &PlannedStep<'_>) -> bool
    ensures { result ≡ is_free slots.now kind step.now }
{
    is_kind(kind, step.kind()) && slots.is_left(step.place()) && may_begin(slots, step)
}

/// Whether the step is the first of its change, or the step before it began and has not failed.
fn may_begin(slots: &Slots, step: &PlannedStep<'_>) -> bool
    ensures { result ≡ may_begin slots.now step.now }
{
    if step.is_first() {
        return true;
    }
    match slots.get(step.place().saturating_sub(1)) {
        Some(before) => goes_well(before),
        None => false,
    }
}

/// Whether the step has not failed.
fn goes_well(step: &BegunStep) -> bool
    ensures { result ≡ goes_well step.now }
{
    match &step.end {
        Some(end) => !is_failed(&end.result),
        None => true,
    }
}

fn is_failed(end: &EndResult) -> bool
    ensures { result ≡ is_failed end.now }
{
    match end {
        EndResult::Completed { .. } => false,
        EndResult::Failed => true,
    }
}

/// Whether the object had that id before the change.
fn had_id(id: Option<&str>, step: &PlannedStep<'_>) -> bool
    ensures { result ≡ had_id (option_copied id.entry) step.now }
{
    match (step.change().prior_id(), id) {
        (Some(prior), Some(id)) => prior == id,
        (None, None) => true,
        (Some(_), None) | (None, Some(_)) => false,
    }
}
