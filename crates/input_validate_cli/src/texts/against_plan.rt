//! Texts of errors that concern the plan of a script.
//!
//! Every `Err` means that memory was refused.

use crate::texts::count::Count;
use crate::texts::jq_path::value_at;
use crate::texts::plan_names::{PlanNames, text_at};
use crate::texts::value::shortened_json;
use apply_plan::StepKind;
use input_validate::{Finding, Name, Segment};
use serde_json::Value;
use std::alloc::{AllocError, Global};

/// Returns the name of a kind of step.
fn kind_text(kind: StepKind) -> &'static str {
    match kind {
        StepKind::Create => "create",
        StepKind::Update => "update",
        StepKind::Delete => "delete",
        StepKind::Read => "read",
    }
}

/// Returns the name of a kind of step, with its article.
fn a_kind_text(kind: StepKind) -> &'static str {
    match kind {
        StepKind::Create => "a create",
        StepKind::Update => "an update",
        StepKind::Delete => "a delete",
        StepKind::Read => "a read",
    }
}

/// Describes the steps of a change.
fn steps_text(
    alloc: Global,
    first: Option<StepKind>,
    second: Option<StepKind>,
) -> Result<String, AllocError> {
    match (first, second) {
        (Some(first), Some(second)) => {
            let (first, second) = (kind_text(first), kind_text(second));
            format!(in alloc; "2 steps ({first}, {second})")
        }
        (Some(first), None) => {
            let first = kind_text(first);
            format!(in alloc; "1 step ({first})")
        }
        _ => String::from_str(alloc, "no step"),
    }
}

/// Returns the address in an entry or in an item of `after`. The path of the finding leads to that
/// value or to one of its members.
fn address_named<'a>(tree: &'a Value, finding: &Finding) -> Option<&'a str> {
    let path = &finding.path;
    let stated = value_at(tree, path, path.len())?;
    if path.len() == 0 {
        return None;
    }
    match path.get(path.len() - 1) {
        Segment::Member(_) => text_at(value_at(tree, path, path.len() - 1)?, Name::Address),
        _ => stated.as_str(),
    }
}

/// Makes the text for an address that the plan does not change. Near addresses are added if `names`
/// is given.
pub fn unknown_address_text(
    alloc: Global,
    tree: &Value,
    finding: &Finding,
    names: Option<&PlanNames<'_>>,
) -> Result<String, AllocError> {
    let address = address_named(tree, finding).unwrap_or("");
    let value = Value::String(String::from_str(alloc, address)?);
    let shown = shortened_json(alloc, &value)?;
    let mut text = format!(in alloc; "is {shown}, which the plan does not change")?;
    if let Some(names) = names {
        names.push_near_addresses(alloc, &mut text, address)?;
    }
    Ok(text)
}

/// Makes the text for an object that the plan does not change, where it changes another one at the
/// address.
pub fn unknown_object_text(
    alloc: Global,
    tree: &Value,
    finding: &Finding,
    names: &PlanNames<'_>,
) -> Result<String, AllocError> {
    let address = address_named(tree, finding).unwrap_or("");
    let keys = names.keys_text(alloc, address)?;
    format!(in alloc;
        "names an object that the plan does not change; at that address it has those of the deposed keys: {keys}"
    )
}

/// Makes the text for an entry with more steps than its change.
pub fn too_many_steps_text(
    alloc: Global,
    count: u64,
    first: Option<StepKind>,
    second: Option<StepKind>,
) -> Result<String, AllocError> {
    let own = if count == 1 { "step" } else { "steps" };
    let count = Count(count);
    let steps = steps_text(alloc, first, second)?;
    format!(in alloc; "has {count} {own}, and the change has {steps}")
}

/// Makes the text for a step that its change does not have.
pub fn no_such_step_text(
    alloc: Global,
    shown: &str,
    first: Option<StepKind>,
    second: Option<StepKind>,
) -> Result<String, AllocError> {
    let steps = steps_text(alloc, first, second)?;
    format!(in alloc; "is {shown}, and the change has {steps}")
}

/// Makes the text for provisioners at a step that has none.
pub fn takes_none_text(alloc: Global, kind: StepKind) -> Result<String, AllocError> {
    let kind = a_kind_text(kind);
    format!(in alloc;
        "stands at a step that is {kind}, and only a create has some, or a delete that comes first, of an object that is not deposed"
    )
}

/// Makes the text for a failure that only warns, at a step that is no read.
pub fn only_warns_text(alloc: Global, kind: StepKind) -> Result<String, AllocError> {
    let kind = a_kind_text(kind);
    format!(in alloc; "only warns at a step that is {kind}, and only that of a read may")
}
