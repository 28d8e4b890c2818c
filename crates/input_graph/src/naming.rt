//! The names of the nodes of steps.

ghost use Rattle.std.specs.Prelude.{◌≡◌, ◌++◌, codes, IfOk};
ghost use Rattle.std.specs.Option.{option_copied};
ghost use Rattle.input_graph.specs.StepNodes.{step_name};

use apply_model::Text;
use std::alloc::{AllocError, Global};

/// The name of the node of a step: the step of that object which deletes it, or its only other
/// step. `Err` where memory is refused.
pub fn step_name(
    alloc: Global,
    address: &str,
    deposed: Option<&str>,
    is_delete: bool,
) -> Result<Text, AllocError>
    ensures { IfOk result (λ name. name ≡ step_name address.now (option_copied deposed.entry) is_delete) }
{
    if !is_delete {
        return Text::new(alloc, address);
    }
    match deposed {
        Some(key) => deposed_name(alloc, address, key),
        None => current_name(alloc, address),
    }
}

/// The name of the node that deletes a deposed object.
fn deposed_name(alloc: Global, address: &str, key: &str) -> Result<Text, AllocError>
    ensures { IfOk result (λ name. name ≡ address.now ++ (codes " (destroy deposed " ++ (key.now ++ codes ")"))) }
{
    let name = format!(in alloc; "{address} (destroy deposed {key})")?;
    Text::new(alloc, name.as_str())
}

/// The name of the node that deletes the current object.
fn current_name(alloc: Global, address: &str) -> Result<Text, AllocError>
    ensures { IfOk result (λ name. name ≡ address.now ++ codes " (destroy)") }
{
    let name = format!(in alloc; "{address} (destroy)")?;
    Text::new(alloc, name.as_str())
}
