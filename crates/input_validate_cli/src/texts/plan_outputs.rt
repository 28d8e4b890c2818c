//! Outputs of a plan, for suggestions.
//!
//! Every `Err` means that memory was refused.

use crate::texts::jq_path::{other_name, value_at};
use crate::texts::plan_names::PlanNames;
use input_validate::{Finding, Segment};
use serde_json::{Map, Value};
use std::alloc::{AllocError, Global};

/// Collects the outputs that a plan has after the apply, each once: those that it changes, and
/// those of its prior state.
pub fn output_names(alloc: Global, plan: Option<&Value>) -> Result<Vec<&str>, AllocError> {
    let mut names = Vec::new(alloc);
    let Some(plan) = plan else {
        return Ok(names);
    };
    let changes = object_at(Some(plan), "output_changes");
    if let Some(changes) = changes {
        for (name, change) in changes {
            if !change.is_null() && !is_gone(change) {
                names.push(name.as_str())?;
            }
        }
    }
    let values = value_in(value_in(Some(plan), "prior_state"), "values");
    if let Some(rule) = object_at(values, "outputs") {
        for (name, _) in rule {
            if !is_changed(changes, name.as_str()) {
                names.push(name.as_str())?;
            }
        }
    }
    Ok(names)
}

/// Returns the outputs that a plan changes.
pub fn output_changes(plan: Option<&Value>) -> Option<&Value> {
    value_in(plan, "output_changes")
}

/// Returns whether the plan states a change for an output.
fn is_changed(changes: Option<&Map<String, Value>>, name: &str) -> bool {
    let Some(changes) = changes else {
        return false;
    };
    match changes.get(name) {
        Some(change) => !change.is_null(),
        None => false,
    }
}

/// Returns whether a change deletes the output.
fn is_gone(change: &Value) -> bool {
    match value_in(Some(change), "actions") {
        Some(Value::Array(actions)) => match actions.as_slice() {
            [action] => action.as_str() == Some("delete"),
            _ => false,
        },
        _ => false,
    }
}

fn value_in<'a>(object: Option<&'a Value>, name: &str) -> Option<&'a Value> {
    object?.get(name)
}

/// Returns a member that is an object.
fn object_at<'a>(object: Option<&'a Value>, name: &str) -> Option<&'a Map<String, Value>> {
    value_in(object, name)?.as_object()
}

/// Makes the text for an output that the plan does not have. Near names are added if `names` is
/// given.
pub fn unknown_output_text(
    alloc: Global,
    tree: &Value,
    finding: &Finding,
    names: Option<&PlanNames<'_>>,
) -> Result<String, AllocError> {
    let mut text = String::from_str(alloc, "is no output of the plan")?;
    if let Some(names) = names {
        names.push_near_outputs(
            alloc,
            &mut text,
            unknown_output(tree, finding).unwrap_or(""),
        )?;
    }
    Ok(text)
}

/// Returns the name of the output that the path leads to.
fn unknown_output<'a>(tree: &'a Value, finding: &Finding) -> Option<&'a str> {
    let path = &finding.path;
    if path.len() == 0 {
        return None;
    }
    match path.get(path.len() - 1) {
        Segment::Other(number) => other_name(value_at(tree, path, path.len() - 1), number),
        _ => None,
    }
}
