//! The elements of the prior state.

ghost use Rattle.std.specs.Prelude.{◌≡◌, ◌++◌, IfOk, OnOk, map, option_map};
ghost use Rattle.std.specs.List.{flat_map};
ghost use Rattle.serde_json.specs.View.{view};
ghost use Rattle.apply_prior.specs.Objects.{placed_child, placed_in, placed_of, root_module};
ghost use Rattle.apply_prior.specs.Views.{placed_view};

use crate::lookups::items_at;
use apply_json_tree::members::{member, non_empty_text_member};
use serde_json::Value;
use std::alloc::{AllocError, Global};

/// More levels of modules than any tree has: its values nest at most 127 deep.
const MAX_MODULES: u32 = 127;

/// An element of the prior state.
#[derive(Clone, Copy)]
pub struct Placed<'a> {
    /// The address of its module, empty for the root module.
    pub module_address: &'a str,
    pub element: &'a Value,
}

/// The elements of the prior state: those of the root module, then those of each of its modules, in
/// order, and so on downwards. `Err` means that memory was refused.
pub fn placed_of(alloc: Global, plan: &Value) -> Result<Vec<Placed<'_>>, AllocError>
    ensures { IfOk result (λ placed. map placed_view placed.items ≡ placed_of (view plan.now)) }
{
    let mut placed = Vec::new(alloc);
    if let Some(module) = root_module(plan) {
        place_module(&mut placed, MAX_MODULES, "", module)?;
    }
    Ok(placed)
}

fn root_module(plan: &Value) -> Option<&Value>
    ensures { option_map (λ value. view value.now) result ≡ root_module (view plan.now) }
{
    let state = member(plan, "prior_state")?;
    member(member(state, "values")?, "root_module")
}

/// Adds the elements of a module and of those in it, at most so many levels.
#[cycle(place)]
fn place_module<'a>(
    placed: &mut Vec<Placed<'a>>,
    levels: u32,
    module_address: &'a str,
    module: &'a Value,
) -> Result<(), AllocError>
    ensures { OnOk result (map placed_view placed.new.items
        ≡ map placed_view placed.old.items ++ placed_in levels module_address.now (view module.now)) }
{
    if levels == 0 {
        return Ok(());
    }
    let elements = items_at(module, "resources");
    for element in elements {
        placed.push(Placed {
            module_address,
            element,
        })?;
    }
    place_modules(placed, levels - 1, items_at(module, "child_modules"))
}

/// Adds the elements of these modules and of those in them.
#[cycle(place)]
fn place_modules<'a>(
    placed: &mut Vec<Placed<'a>>,
    levels: u32,
    modules: &'a [Value],
) -> Result<(), AllocError>
    ensures { OnOk result (map placed_view placed.new.items
        ≡ map placed_view placed.old.items ++ flat_map (placed_child levels) (map view modules.now)) }
{
    for module in modules {
        if let Some(address) = non_empty_text_member(module, "address") {
            place_module(placed, levels, address, module)?;
        }
    }
    Ok(())
}
