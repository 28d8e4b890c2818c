//! The objects that steps of a script wait for.
//!
//! Every `Err` means that memory was refused.

ghost use Rattle.std.specs.Prelude.{◌≡◌, ◌++◌, IfOk, OnOk, is_some, map, option_map};
ghost use Rattle.std.specs.List.{flat_map};
ghost use Rattle.serde_json.specs.View.{view};
ghost use Rattle.input_validate.specs.AgainstPlan.{object_named};
ghost use Rattle.input_validate.specs.Doubts.{named_in_entry, named_in_script, named_in_step};
ghost use Rattle.input_validate.specs.FirstNamed.{AreFirst};
ghost use Rattle.input_validate.specs.ObjectNames.{name_view};
ghost use Rattle.input_validate.specs.PlanFindings.{first_named};

use crate::against_plan::first_named::FirstNamed;
use crate::against_plan::violations::object_named;
use crate::findings::name::Name;
use crate::plan::object_name::ObjectName;
use crate::rules::members::items_at;
use serde_json::Value;
use std::alloc::{AllocError, Global};
use std::marker::Model;

/// The objects that the items of `after` in a script name, with an index. Contracts see their list.
#[derive(Drop)]
pub struct Waited<'a> {
    names: Vec<Option<ObjectName<'a>>>,
    first: FirstNamed<'a>,
}

impl<'a> Model for Waited<'a> {
    ghost use Rattle.std.specs.Prelude.{List, Option, map, option_map};
    ghost use Rattle.input_validate.specs.FirstNamed.{AreFirst};
    ghost use Rattle.input_validate.specs.ObjectNames.{Named, name_view};

    ghost Value = { List (Option Named) };

    ghost view = { λ waited. map (option_map name_view) waited.names.items };

    ghost invariant = { λ waited. AreFirst waited.first (map (option_map name_view) waited.names.items) };
}

impl<'a> Waited<'a> {
    /// Collects the objects from a script.
    pub fn of(alloc: Global, script: &'a Value) -> Result<Waited<'a>, AllocError>
        ensures { IfOk result (λ waited. waited ≡ named_in_script (view script.now)) }
    {
        let mut names = Vec::new(alloc);
        push_entries(&mut names, items_at(script, Name::Changes))?;
        let first = index_of(alloc, &names)?;
        Ok(Waited { names, first })
    }

    /// Returns whether an item of `after` names this object.
    pub fn has(&self, name: Option<ObjectName<'a>>) -> bool
        ensures { result ≡ is_some (first_named self.now (option_map name_view name.entry)) }
    {
        self.first.get(name).is_some()
    }
}

/// Adds the objects that these entries wait for.
fn push_entries<'a>(
    names: &mut Vec<Option<ObjectName<'a>>>,
    entries: &'a [Value],
) -> Result<(), AllocError>
    ensures { OnOk result (map (option_map name_view) names.new.items ≡ map (option_map name_view) names.old.items ++ flat_map named_in_entry (map view entries.now)) }
{
    for entry in entries {
        push_steps(names, items_at(entry, Name::Steps))?;
    }
    Ok(())
}

/// Adds the objects that these steps wait for.
fn push_steps<'a>(
    names: &mut Vec<Option<ObjectName<'a>>>,
    steps: &'a [Value],
) -> Result<(), AllocError>
    ensures { OnOk result (map (option_map name_view) names.new.items ≡ map (option_map name_view) names.old.items ++ flat_map named_in_step (map view steps.now)) }
{
    for step in steps {
        push_items(names, items_at(step, Name::After))?;
    }
    Ok(())
}

/// Adds the objects that these items of `after` name.
fn push_items<'a>(
    names: &mut Vec<Option<ObjectName<'a>>>,
    items: &'a [Value],
) -> Result<(), AllocError>
    ensures { OnOk result (map (option_map name_view) names.new.items ≡ map (option_map name_view) names.old.items ++ map object_named (map view items.now)) }
{
    for item in items {
        names.push(object_named(item))?;
    }
    Ok(())
}

/// Indexes objects.
fn index_of<'a>(
    alloc: Global,
    names: &[Option<ObjectName<'a>>],
) -> Result<FirstNamed<'a>, AllocError>
    ensures { IfOk result (λ first. AreFirst first (map (option_map name_view) names.now)) }
{
    let mut first = FirstNamed::new(alloc);
    for (number, name) in names.iter().enumerate() {
        first.push(*name, number)?;
    }
    Ok(first)
}
