//! Checks what a script says of a planning against the objects that the plan knows.

ghost use Rattle.std.specs.Prelude.{◌≡◌, ◌++◌, ◌∷◌, List, [], IfOk, None, length, map, option_map, slice_get};
ghost use Rattle.std.specs.Option.{option_and_then};
ghost use Rattle.apply_plan.specs.Results.{Gives, unless_refused};
ghost use Rattle.apply_planning_script.specs.Items.{Item};
ghost use Rattle.apply_planning_script.specs.ItemSlots.{item_view, object_of_raw};
ghost use Rattle.apply_planning_script.specs.Planning.{fault_with, first_fault, is_known, misfits, mode_of_object};
ghost use Rattle.apply_planning_script.specs.SeenItems.{HaveSeen};

use crate::object_index::{AboutObject, ObjectIndex};
use crate::raw_item::RawItem;
use crate::unknown_object::mode_at;
use apply_model::Mode;
use apply_plan::{PlanningError, ScriptError};
use apply_prior::PriorObject;
use apply_resolve::ObjectSet;
use std::alloc::{AllocError, Global};

/// For each item, whether the plan knows its object.
///
/// `Err` is `ScriptError::Planning` for the first item with a fault, or `ScriptError::Memory`.
pub fn check<'a>(
    alloc: Global,
    items: &'a [RawItem<'a>],
    objects: &'a [PriorObject],
) -> Result<Vec<bool>, ScriptError>
    ensures { Gives ScriptError.Memory (λ known. known.items) result
        (unless_refused (option_map ScriptError.Planning (first_fault objects.now [] (map item_view items.now)))
        (map (λ item. is_known objects.now (object_of_raw item)) items.now)) }
{
    let index = ObjectIndex::of(alloc, objects)?;
    let mut seen = ObjectSet::new(alloc);
    let mut known = Vec::with_capacity(alloc, items.len())?;
    for (number, item) in items.iter().enumerate() {
        let object = index.get(item.id());
        let mode = known_mode(objects, object);
        if let Some(fault) = fault_of(alloc, number, item, mode, &mut seen)? {
            return Err(ScriptError::Planning(fault));
        }
        known.push(object.is_some())?;
    }
    Ok(known)
}

/// The fault of item `number`, whose object has the mode `known` if the plan knows the object. The
/// objects of the items before it are in `seen`, and its own is added. `Err` means that memory was
/// refused.
fn fault_of<'a>(
    alloc: Global,
    number: usize,
    item: &'a RawItem<'a>,
    known: Option<Mode>,
    seen: &mut ObjectSet<'a>,
) -> Result<Option<PlanningError>, AllocError>
    ensures fault { IfOk result (λ fault. (earlier : List Item) → HaveSeen seen.old earlier → number ≡ length earlier
        → fault ≡ fault_with earlier (item_view item.now) (mode_of_object known (item_view item.now))) }
    ensures seen { IfOk result (λ fault. (earlier : List Item) → HaveSeen seen.old earlier → fault ≡ None
        → HaveSeen seen.new (earlier ++ item_view item.now ∷ [])) }
{
    let Some(mode) = mode_of_object(alloc, item, known)? else {
        return Ok(Some(PlanningError::NoObject(number)));
    };
    if misfits(item, mode) {
        return Ok(Some(PlanningError::Misfits(number)));
    }
    if seen.insert(item.id())? {
        Ok(None)
    } else {
        Ok(Some(PlanningError::Repeated(number)))
    }
}

/// The mode of the object of that number.
fn known_mode(objects: &[PriorObject], number: Option<usize>) -> Option<Mode>
    ensures { result ≡ option_map (λ prior. prior.object.mode) (option_and_then (slice_get objects.now) number) }
{
    match objects.get(number?) {
        Some(prior) => Some(prior.object.mode()),
        None => None,
    }
}

/// The mode of the object of an item: `known`, or that of its address. `None` where the item has no
/// object. `Err` means that memory was refused.
fn mode_of_object(
    alloc: Global,
    item: &RawItem<'_>,
    known: Option<Mode>,
) -> Result<Option<Mode>, AllocError>
    ensures { IfOk result (λ mode. mode ≡ mode_of_object known (item_view item.now)) }
{
    match known {
        Some(mode) => Ok(Some(mode)),
        None => mode_at(alloc, item.address),
    }
}

/// Whether the item says what an object of this mode cannot do.
fn misfits(item: &RawItem<'_>, mode: Mode) -> bool
    ensures { result ≡ misfits (item_view item.now) mode }
{
    match mode {
        Mode::DataSource => item.is_gone || item.deposed.is_some(),
        Mode::Managed => match &item.failure {
            Some(failure) => failure.only_warns,
            None => false,
        },
    }
}
