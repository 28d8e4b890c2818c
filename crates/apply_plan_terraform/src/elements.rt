//! Reads from an element of `resource_changes` what only Terraform's form needs. Every `Err` means
//! that memory was refused.

ghost use Rattle.std.specs.Prelude.{◌≡◌, IfOk, option_map};
ghost use Rattle.std.specs.Option.{option_copied};
ghost use Rattle.serde_json.specs.View.{view, items_view};
ghost use Rattle.apply_address.specs.Parts.{parts_view};
ghost use Rattle.apply_plan_terraform.specs.Details as specs;
ghost use Rattle.apply_plan_terraform.specs.Details.{element_details};

use crate::flags::is_flag;
use crate::reasons::reason_named;
use apply_address::{AddressParts, parts_of};
use apply_json_tree::members::{is_text, member, non_empty_text_member};
use apply_model::{ChangeDetails, Importing, PreviousResource, Reason, Text};
use serde_json::Value;
use std::alloc::{AllocError, Global};

/// Reads the details of an element, and copies their texts.
pub fn change_details(alloc: Global, element: &Value) -> Result<ChangeDetails, AllocError>
    ensures { IfOk result (λ details. details ≡ element_details (view element.now)) }
{
    let change = member(element, "change");
    Ok(ChangeDetails {
        forgets: forgets(change),
        reason: reason(element),
        importing: importing(alloc, change)?,
        generated_config: Text::of_option(alloc, generated_config(change))?,
        planned_id: Text::of_option(alloc, planned_id(change))?,
        previous: previous(alloc, element)?,
    })
}

/// The reason for the change. `None` when the plan gives none.
fn reason(element: &Value) -> Option<Reason>
    ensures { result ≡ specs.reason_of (view element.now) }
{
    match non_empty_text_member(element, "action_reason") {
        Some(word) => Some(reason_named(word)),
        None => None,
    }
}

/// Whether Terraform forgets the object.
fn forgets(change: Option<&Value>) -> bool
    ensures { result ≡ specs.forgets_in (option_map (λ value. view value.now) change.entry) }
{
    match actions(change) {
        Some(actions) => is_forgetting(actions),
        None => false,
    }
}

/// Whether the list of actions is `["forget"]`.
fn is_forgetting(actions: &[Value]) -> bool
    ensures { result ≡ specs.is_forgetting (items_view actions.now) }
{
    match actions {
        [] => false,
        [action] => is_text(action, "forget"),
        _ => false,
    }
}

/// The list of actions.
fn actions(change: Option<&Value>) -> Option<&[Value]>
    ensures { option_map (λ items. items_view items.now) result
        ≡ specs.actions_in (option_map (λ value. view value.now) change.entry) }
{
    Some(member(change?, "actions")?.as_array()?.as_slice())
}

/// Reads the import of a change, and copies its id. `None` when nothing is imported.
fn importing(alloc: Global, change: Option<&Value>) -> Result<Option<Importing>, AllocError>
    ensures { IfOk result (λ read. read
        ≡ specs.importing_of (specs.imported_in (option_map (λ value. view value.now) change.entry))) }
{
    match imported(change) {
        Some(object) => Ok(Some(Importing {
            id: Text::of_option(alloc, non_empty_text_member(object, "id"))?,
        })),
        None => Ok(None),
    }
}

/// The object `importing`. `None` when there is none.
fn imported(change: Option<&Value>) -> Option<&Value>
    ensures { option_map (λ value. view value.now) result
        ≡ specs.imported_in (option_map (λ value. view value.now) change.entry) }
{
    let read = member(change?, "importing")?;
    if read.is_object() { Some(read) } else { None }
}

/// The configuration that Terraform generated for an imported object.
fn generated_config(change: Option<&Value>) -> Option<&str>
    ensures { option_copied result
        ≡ specs.config_in (option_map (λ value. view value.now) change.entry) }
{
    non_empty_text_member(change?, "generated_config")
}

/// The id after the change. `None` when the id is unknown or sensitive.
fn planned_id(change: Option<&Value>) -> Option<&str>
    ensures { option_copied result
        ≡ specs.planned_id_in (option_map (λ value. view value.now) change.entry) }
{
    let change = change?;
    if hides(member(change, "after_sensitive")) {
        return None;
    }
    non_empty_text_member(member(change, "after")?, "id")
}

/// Whether `after_sensitive` marks the id as sensitive.
fn hides(sensitive: Option<&Value>) -> bool
    ensures { result ≡ specs.hides_id (option_map (λ value. view value.now) sensitive.entry) }
{
    match sensitive {
        Some(value) => is_flag(Some(value), true) || is_flag(member(value, "id"), true),
        None => false,
    }
}

/// Reads the resource that the object was before its move, and copies its parts.
fn previous(alloc: Global, element: &Value) -> Result<Option<PreviousResource>, AllocError>
    ensures { IfOk result (λ read. read ≡ specs.previous_of (view element.now)) }
{
    match non_empty_text_member(element, "previous_address") {
        Some(address) => previous_at(alloc, address),
        None => Ok(None),
    }
}

/// Reads the resource with that address. `None` when the text is no address.
fn previous_at(alloc: Global, address: &str) -> Result<Option<PreviousResource>, AllocError>
    ensures { IfOk result (λ read. read ≡ specs.previous_at address.now) }
{
    match parts_of(alloc, address) {
        Ok(Some(parts)) => match copied(alloc, address, parts) {
            Ok(previous) => Ok(Some(previous)),
            Err(refused) => Err(refused),
        },
        Ok(None) => Ok(None),
        Err(refused) => Err(refused),
    }
}

/// Copies the resource with that address and these parts.
fn copied(
    alloc: Global,
    address: &str,
    parts: AddressParts<'_>,
) -> Result<PreviousResource, AllocError>
    ensures { IfOk result
        (λ previous. previous ≡ specs.with_parts address.now (parts_view parts.entry)) }
{
    let AddressParts {
        module_address,
        resource,
        kind_name,
        name,
        key,
    } = parts;
    Ok(PreviousResource {
        address: Text::new(alloc, address)?,
        module_address: Text::new(alloc, module_address)?,
        resource: Text::new(alloc, resource)?,
        kind_name: Text::new(alloc, kind_name)?,
        name: Text::new(alloc, name)?,
        key,
    })
}
