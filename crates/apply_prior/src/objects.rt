//! Reads the objects that Terraform knows before it plans. Every `Err` means that memory was
//! refused.

ghost use Rattle.std.specs.Prelude.{◌≡◌, IfOk, List, OnOk, map};
ghost use Rattle.std.specs.List.{filter_map};
ghost use Rattle.std.specs.Option.{option_copied};
ghost use Rattle.serde_json.specs.Find.{as_str};
ghost use Rattle.serde_json.specs.View.{view};
ghost use Rattle.apply_prior.specs.declared.drift.Drift.{Drift};
ghost use Rattle.apply_prior.specs.Objects.{ObjectOfPlan, objects_with, placed_object, prior_object, vanished_object, with_object, with_objects};
ghost use Rattle.apply_prior.specs.Prior.{object_view};
ghost use Rattle.apply_prior.specs.Views.{AreLast, Holds, element_view, placed_view};

use crate::drift::Drift;
use crate::element::Element;
use crate::last_ids::LastIds;
use crate::lookups::items_at;
use crate::placed::{Placed, placed_of};
use crate::prior_object::PriorObject;
use apply_model::Text;
use apply_resolve::ObjectSet;
use serde_json::Value;
use std::alloc::{AllocError, Global};

/// Objects, none twice.
#[derive(Drop)]
pub struct Objects<'a> {
    objects: Vec<PriorObject>,
    seen: ObjectSet<'a>,
    ids: LastIds<'a>,
}

/// Reads the objects of the prior state, then those of these drifts that the prior state lacks.
pub fn objects_of(
    alloc: Global,
    plan: &Value,
    drifts: &[Drift],
) -> Result<Vec<PriorObject>, AllocError>
    ensures { IfOk result (λ objects. map object_view objects.items ≡ objects_with drifts.now (view plan.now)) }
{
    let mut objects = Objects {
        objects: Vec::new(alloc),
        seen: ObjectSet::new(alloc),
        ids: LastIds::of(alloc, drifts)?,
    };
    let placed = placed_of(alloc, plan)?;
    add_placed(alloc, &mut objects, &placed)?;
    add_vanished(alloc, &mut objects, drifts)?;
    Ok(objects.objects)
}

/// Adds the objects of elements of the prior state.
fn add_placed<'a>(
    alloc: Global,
    objects: &mut Objects<'a>,
    placed: &[Placed<'a>],
) -> Result<(), AllocError>
    ensures { OnOk result ((drifts : List Drift) → (before : List ObjectOfPlan) → Holds objects.old drifts before
        → Holds objects.new drifts (with_objects before (filter_map (placed_object drifts) (map placed_view placed.now)))) }
{
    for place in placed {
        if let Some(object) = Element::of_state(place.module_address, place.element) {
            add(
                alloc,
                objects,
                &object,
                items_at(place.element, "depends_on"),
            )?;
        }
    }
    Ok(())
}

/// Adds the objects of drifts.
fn add_vanished<'a>(
    alloc: Global,
    objects: &mut Objects<'a>,
    vanished: &'a [Drift],
) -> Result<(), AllocError>
    ensures { OnOk result ((drifts : List Drift) → (before : List ObjectOfPlan) → Holds objects.old drifts before
        → Holds objects.new drifts (with_objects before (filter_map (vanished_object drifts) vanished.now))) }
{
    for drift in vanished {
        if let Some(object) = Element::of_vanished(&drift.change) {
            add(alloc, objects, &object, &[])?;
        }
    }
    Ok(())
}

/// Adds an object, unless one with its address and deposed key is there.
fn add<'a>(
    alloc: Global,
    objects: &mut Objects<'a>,
    object: &Element<'a>,
    depends_on: &[Value],
) -> Result<(), AllocError>
    ensures { OnOk result ((drifts : List Drift) → (before : List ObjectOfPlan) → Holds objects.old drifts before
        → Holds objects.new drifts (with_object before
        (prior_object drifts (element_view object.now) (filter_map as_str (map view depends_on.now))))) }
{
    if !objects.seen.insert(object.id())? {
        return Ok(());
    }
    let id_before = objects.ids.id_before(object);
    let prior = prior_object(alloc, object, depends_on, id_before)?;
    objects.objects.push(prior)?;
    Ok(())
}

/// Copies an object.
fn prior_object(
    alloc: Global,
    object: &Element<'_>,
    depends_on: &[Value],
    id_before: Option<&str>,
) -> Result<PriorObject, AllocError>
    ensures { IfOk result (λ prior. object_view prior ≡ record {
      object = element_view object.now;
      depends_on = filter_map as_str (map view depends_on.now);
      id_before = option_copied id_before.entry;
    }) }
{
    let object = object.copied(alloc)?;
    let depends_on = texts_of(alloc, depends_on)?;
    let id_before = Text::of_option(alloc, id_before)?;
    Ok(PriorObject {
        object,
        depends_on,
        id_before,
    })
}

/// Copies the texts among these values.
fn texts_of(alloc: Global, values: &[Value]) -> Result<Vec<Text>, AllocError>
    ensures { IfOk result (λ texts. texts.items ≡ filter_map as_str (map view values.now)) }
{
    let mut texts = Vec::new(alloc);
    for value in values {
        if let Some(text) = value.as_str() {
            texts.push(Text::new(alloc, text)?)?;
        }
    }
    Ok(texts)
}
