//! Which drifts and changes of a plan are told, and their sums.
//!
//! Every `Err` means that memory was refused.

ghost use Rattle.std.specs.Prelude.{◌≡◌, ◌+◌, ◌-◌, ◌++◌, ◌∷◌, [], ℕ, Bool, if◌then◌else◌, map, IfOk};
ghost use Rattle.std.specs.List.{filter_map};
ghost use Rattle.std.specs.Option.{option_copied};
ghost use Rattle.apply_planning_failures.specs.Planning.{Planning};
ghost use Rattle.apply_planning_failures.specs.PlansPart.{details_at, is_kept, kept, told_with};
ghost use Rattle.apply_planning_failures.specs.LostObjects.{HasLost};
ghost use Rattle.apply_text_planning.specs.Totals.{IsAtMost, planned_totals, plus};

use crate::lost_objects::LostObjects;
use apply_model::{Change, ChangeDetails, Plan};
use apply_prior::Drift;
use apply_resolve::ObjectId;
use apply_text_planning::PlanTotals;
use std::alloc::{AllocError, Global};

/// Whether the change of an object is told. `lost` has the objects that were never done, if the
/// planning failed.
fn is_kept<'a>(lost: &Option<LostObjects<'a>>, change: &'a Change) -> bool
    ensures { (failed : Bool) (planning : Planning) → HasLost failed planning lost.now → result ≡ is_kept failed planning change.now }
{
    let id = ObjectId::of_change(change);
    match lost {
        Some(lost) => !lost.has(id),
        None => true,
    }
}

/// The numbers of the drifts that are told.
pub fn kept_drifts<'a>(
    alloc: Global,
    lost: &Option<LostObjects<'a>>,
    drifts: &'a [Drift],
) -> Result<Vec<usize>, AllocError>
    ensures { IfOk result (λ numbers. (failed : Bool) (planning : Planning) → HasLost failed planning lost.now
        → numbers.items ≡ kept failed planning (map (λ drift. drift.change) drifts.now)) }
{
    let mut numbers = Vec::new(alloc);
    for number in 0..drifts.len() {
        if is_kept(lost, &drifts[number].change) {
            numbers.push(number)?;
        }
    }
    Ok(numbers)
}

/// The numbers of the planned changes that are told.
pub fn kept_changes<'a>(
    alloc: Global,
    lost: &Option<LostObjects<'a>>,
    plan: &'a Plan,
) -> Result<Vec<u32>, AllocError>
    ensures { IfOk result (λ numbers. (failed : Bool) (planning : Planning) → HasLost failed planning lost.now
        → numbers.items ≡ kept failed planning plan.now.changes) }
{
    let mut numbers = Vec::new(alloc);
    for number in 0..plan.len() {
        if is_kept(lost, plan.change(number)) {
            numbers.push(number)?;
        }
    }
    Ok(numbers)
}

/// The sums of the planned changes that are told.
pub fn totals_of<'a>(
    lost: &Option<LostObjects<'a>>,
    plan: &'a Plan,
    details: &[ChangeDetails],
) -> PlanTotals
    ensures { (failed : Bool) (planning : Planning) → HasLost failed planning lost.now
        → result ≡ planned_totals (filter_map (details_at plan.now.changes details.now) (kept failed planning plan.now.changes)) }
{
    let mut totals = PlanTotals::new();
    for number in 0..plan.len() {
        let change = plan.change(number);
        let is_told = is_kept(lost, change);
        count_if(&mut totals, is_told, change, details.get(number as usize));
    }
    totals
}

/// Counts a planned change, if it is told and has details.
fn count_if(
    totals: &mut PlanTotals,
    is_told: bool,
    change: &Change,
    details: Option<&ChangeDetails>,
)
    requires { IsAtMost (u64.MAX - 2) totals.old }
    ensures counted { totals.new ≡ plus totals.old (planned_totals (told_with is_told change.now (option_copied details.entry))) }
    ensures few { (limit : ℕ) → IsAtMost limit totals.old → IsAtMost (limit + 2) totals.new }
{
    if is_told {
        if let Some(details) = details {
            totals.count(change, details);
        }
    }
}
