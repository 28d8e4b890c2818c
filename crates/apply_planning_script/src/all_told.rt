//! All objects that a stream tells of while a plan is made.

ghost use Rattle.std.specs.Prelude.{◌≡◌, ◌++◌, IfOk, OnOk, length, map, option_map};
ghost use Rattle.std.specs.List.{flat_map, zip};
ghost use Rattle.apply_plan.specs.Results.{Gives};
ghost use Rattle.apply_planning_script.specs.Decisions.{told_decided};
ghost use Rattle.apply_planning_script.specs.ItemSlots.{item_view, object_of_raw};
ghost use Rattle.apply_planning_script.specs.Planning.{is_known, said_of};
ghost use Rattle.apply_planning_script.specs.Told.{object_view, told_by_script, told_unless, told_view};

use crate::checking::check;
use crate::decisions::{Decision, decide, item_at};
use crate::raw_item::RawItem;
use crate::reading::read_script;
use crate::rules::PlanningRules;
use crate::told::told_with;
use crate::unknown_object::unknown_object;
use apply_json::Scratch;
use apply_model::{ChangeDetails, Plan};
use apply_plan::ScriptError;
use apply_planning::Told;
use apply_prior::{Drift, PriorObject};
use std::alloc::{AllocError, Global};

/// Adds an object, if its decision says so.
fn add_known(
    alloc: Global,
    told: &mut Vec<Told>,
    items: &[RawItem<'_>],
    object: PriorObject,
    decision: Decision,
) -> Result<(), AllocError>
    ensures { OnOk result (map told_view told.new.items
        ≡ map told_view told.old.items ++ told_decided (map item_view items.now) (object_view object) decision) }
{
    if !decision.is_told {
        return Ok(());
    }
    told.push(told_with(alloc, object, item_at(items, decision.item))?)?;
    Ok(())
}

/// The objects of a stream among those that the plan knows, in their order, by their decisions.
fn told_known(
    alloc: Global,
    items: &[RawItem<'_>],
    objects: Vec<PriorObject>,
    decisions: &[Decision],
) -> Result<Vec<Told>, AllocError>
    requires { length decisions.now ≡ length objects.items }
    ensures { IfOk result (λ told. map told_view told.items
        ≡ flat_map (λ p. told_decided (map item_view items.now) (object_view p.0) p.1) (zip objects.items decisions.now)) }
{
    let mut told = Vec::new(alloc);
    let mut number = 0;
    for object in objects {
        add_known(alloc, &mut told, items, object, decisions[number])?;
        number += 1;
    }
    Ok(told)
}

/// Adds the object of an item, if the plan does not know it and it is not skipped.
fn add_unless_known(
    alloc: Global,
    told: &mut Vec<Told>,
    item: &RawItem<'_>,
    is_known: bool,
) -> Result<(), AllocError>
    ensures { OnOk result (map told_view told.new.items ≡ map told_view told.old.items ++ told_unless is_known (item_view item.now)) }
{
    if is_known || item.is_skipped {
        return Ok(());
    }
    if let Some(object) = unknown_object(alloc, item.address, item.deposed)? {
        told.push(told_with(alloc, object, Some(item))?)?;
    }
    Ok(())
}

/// Adds the objects that the plan does not know, in the order of their items. `known` states of
/// each item whether the plan knows its object.
fn add_unknown(
    alloc: Global,
    told: &mut Vec<Told>,
    items: &[RawItem<'_>],
    known: &[bool],
) -> Result<(), AllocError>
    requires { length known.now ≡ length items.now }
    ensures { OnOk result (map told_view told.new.items
        ≡ map told_view told.old.items ++ flat_map (λ p. told_unless p.1 (item_view p.0)) (zip items.now known.now)) }
{
    for number in 0..items.len() {
        add_unless_known(alloc, told, &items[number], known[number])?;
    }
    Ok(())
}

/// What a script says of the planning of these objects: its items, and for each whether the plan
/// knows its object. Its errors are those of `told_objects`.
fn said<'a>(
    alloc: Global,
    scratch: &'a mut Scratch,
    script: Option<&'a [u8]>,
    objects: &[PriorObject],
) -> Result<(Vec<RawItem<'a>>, Vec<bool>), ScriptError>
    ensures items { Gives ScriptError.Memory (λ said. map item_view said.0.items) result
        (said_of objects.now (option_map (λ bytes. bytes.now) script.entry)) }
    ensures known { IfOk result (λ said. said.1.items ≡ map (λ item. is_known objects.now (object_of_raw item)) said.0.items) }
{
    let read = read_script(alloc, scratch, script)?;
    let known = check(alloc, &read.items, objects)?;
    match read.fault {
        Some(fault) => Err(ScriptError::Planning(fault)),
        None => Ok((read.items, known)),
    }
}

/// The objects that a stream tells of while a plan is made: those that the plan knows, in their
/// order, then those that only the script names.
///
/// `script` has the bytes of a script that `apply_plan::read_script` accepted. `objects` and
/// `drifts` are those of the plan, and `details` are those of its changes. A script decides of each
/// object that an item of its `planning` is about; `rules` decide of the others.
///
/// `Err` with `ScriptError::BadShape(None)` when `planning` is neither an array nor absent. `Err`
/// with `ScriptError::Planning` for the first item with a fault. `Err` with `ScriptError::Memory`
/// when memory is refused. `Err` with `ScriptError::TooLarge` or `ScriptError::NotJson` when the
/// bytes are no JSON of at most 64 MiB.
pub fn told_objects(
    alloc: Global,
    script: Option<&[u8]>,
    rules: PlanningRules,
    plan: &Plan,
    details: &[ChangeDetails],
    objects: Vec<PriorObject>,
    drifts: &[Drift],
) -> Result<Vec<Told>, ScriptError>
    ensures { Gives ScriptError.Memory (λ told. map told_view told.items) result
        (told_by_script rules (record { changes = plan.now.changes; details = details.now; drifts = drifts.now })
        objects.items (option_map (λ bytes. bytes.now) script.entry)) }
{
    let mut scratch = Scratch::new(alloc);
    let (items, known) = said(alloc, &mut scratch, script, &objects)?;
    let decisions = decide(alloc, rules, plan, details, drifts, &items, &objects)?;
    let mut told = told_known(alloc, &items, objects, &decisions)?;
    add_unknown(alloc, &mut told, &items, &known)?;
    Ok(told)
}
