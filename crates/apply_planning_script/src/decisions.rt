//! Decides which objects that the plan knows a stream tells of.

ghost use Rattle.std.specs.Prelude.{◌≡◌, IfOk, map, option_map, slice_get};
ghost use Rattle.std.specs.Option.{option_and_then};
ghost use Rattle.apply_planning_script.specs.Decisions.{decision_on};
ghost use Rattle.apply_planning_script.specs.ItemSlots.{item_view, object_of_raw};
ghost use Rattle.apply_planning_script.specs.KnownObjects.{HasPlanned};
ghost use Rattle.apply_planning_script.specs.ObjectIndex.{name_of_id, number_of};
ghost use Rattle.apply_planning_script.specs.Objects.{number_in};
ghost use Rattle.apply_planning_script.specs.Rules.{PlannedObjects};

use crate::expected::Expected;
use crate::object_index::ObjectIndex;
use crate::raw_item::RawItem;
use crate::rules::PlanningRules;
use apply_model::{Change, ChangeDetails, Plan};
use apply_prior::{Drift, PriorObject};
use apply_resolve::ObjectId;
use std::alloc::{AllocError, Global};

/// What was decided of an object.
#[derive(Clone, Copy)]
pub struct Decision {
    /// Whether a stream tells of the object.
    pub is_told: bool,
    /// The number of the item that is about the object.
    pub item: Option<usize>,
}

/// The decision on each object. `Err` means that memory was refused.
pub fn decide<'a>(
    alloc: Global,
    rules: PlanningRules,
    plan: &'a Plan,
    details: &'a [ChangeDetails],
    drifts: &'a [Drift],
    items: &'a [RawItem<'a>],
    objects: &'a [PriorObject],
) -> Result<Vec<Decision>, AllocError>
    ensures { IfOk result (λ decisions. decisions.items
        ≡ map (λ prior. decision_on rules (record { changes = plan.now.changes; details = details.now; drifts = drifts.now })
        (map item_view items.now) prior.object) objects.now) }
{
    let expected = Expected::of(alloc, rules, plan, details, drifts)?;
    let index = ObjectIndex::of(alloc, items)?;
    let mut decisions = Vec::with_capacity(alloc, objects.len())?;
    for prior in objects {
        decisions.push(decision_on(&expected, items, &index, &prior.object))?;
    }
    Ok(decisions)
}

/// The decision on an object. `index` is the index of the items.
fn decision_on<'a>(
    expected: &Expected<'a>,
    items: &'a [RawItem<'a>],
    index: &ObjectIndex<'a>,
    object: &'a Change,
) -> Decision
    requires { (id : _) → number_of index.now id ≡ number_in object_of_raw items.now (name_of_id id) }
    ensures { (plan : PlannedObjects) → HasPlanned expected.now plan
        → result ≡ decision_on expected.now.rules plan (map item_view items.now) object.now }
{
    let number = index.get(ObjectId::of_change(object));
    let is_told = match item_at(items, number) {
        Some(item) => !item.is_skipped,
        None => expected.has(object),
    };
    Decision {
        is_told,
        item: number,
    }
}

/// The item of that number.
pub fn item_at<'a>(items: &'a [RawItem<'a>], number: Option<usize>) -> Option<&'a RawItem<'a>>
    ensures { option_map (λ item. item_view item.now) result ≡ option_and_then (slice_get (map item_view items.now)) number }
{
    match number {
        Some(number) => items.get(number),
        None => None,
    }
}
