//! Reading a plan.

ghost use Rattle.std.specs.Prelude.{◌≡◌, ◌≤◌, length};
ghost use Rattle.apply_plan.specs.Bytes.{max_bytes};
ghost use Rattle.apply_plan.specs.Plan.SavedPlan.{plan_of};
ghost use Rattle.apply_plan.specs.Results.{Gives};

use crate::bytes::MAX_BYTES;
use crate::plan::plan_error::PlanError;
use crate::plan::plan_slots::PlanSlots;
use apply_json::{Scratch, read_slots};
use apply_model::Plan;
use std::alloc::Global;

/// Reads a saved plan as `terraform show -json` prints it (JSON Output Format, "Plan
/// Representation").
///
/// Unknown members are ignored, `null` counts as absent, and the last of two members with the same
/// name counts. `Err` is the first fault in the order of [`PlanError`]. `PlanError::Memory` comes
/// as soon as memory is refused, but never for a plan that is too large.
#[tactic(auto, unfolding(crate::specs::Plan::SavedPlan::plan_of))]
pub fn read_plan(alloc: Global, bytes: &[u8]) -> Result<Plan, PlanError>
    ensures defined { Gives PlanError.Memory (λ plan. plan) result (plan_of bytes.now) }
    ensures memory { result ≡ Err PlanError.Memory → length bytes.now ≤ max_bytes }
{
    let mut scratch = Scratch::new(alloc);
    let mut slots = PlanSlots::new(alloc);
    match read_slots(alloc, &mut scratch, bytes, MAX_BYTES, &mut slots) {
        Ok(()) => slots.plan(alloc),
        Err(fault) => Err(PlanError::of_json(fault)),
    }
}
