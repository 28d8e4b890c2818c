//! Names of a plan's objects, for suggestions.
//!
//! Every `Err` means that memory was refused.

use crate::texts::jq_path::{other_name, push_name};
use crate::texts::nearest_names::{first_near, push_near};
use crate::texts::plan_outputs::{output_changes, output_names};
use crate::texts::value::json_text;
use input_validate::{Name, nearest, nearest_addresses};
use serde_json::Value;
use std::alloc::{AllocError, Global};
use std::collections::BTreeSet;

/// How many deposed keys are printed.
const MOST_KEYS: usize = 3;

/// The addresses that a plan changes, in its order, the deposed keys at them, and the outputs.
#[derive(Drop)]
pub struct PlanNames<'a> {
    /// Each address once.
    addresses: Vec<&'a str>,
    /// The outputs that the plan has after the apply, each once.
    outputs: Vec<&'a str>,
    /// The address and the deposed key of each change.
    changes: Vec<(&'a str, Option<&'a str>)>,
    /// The outputs that the plan changes.
    output_changes: Option<&'a Value>,
}

impl<'a> PlanNames<'a> {
    /// Collects the names from the tree of a plan. Without a tree there are none.
    pub fn of(alloc: Global, plan: Option<&'a Value>) -> Result<PlanNames<'a>, AllocError> {
        let mut names = PlanNames {
            addresses: Vec::new(alloc),
            outputs: output_names(alloc, plan)?,
            changes: Vec::new(alloc),
            output_changes: output_changes(plan),
        };
        let mut seen = BTreeSet::new(alloc);
        for element in elements_of(plan) {
            if let Some(address) = text_at(element, Name::Address) {
                names.changes.push((address, key_at(element)))?;
                if seen.insert(address)? {
                    names.addresses.push(address)?;
                }
            }
        }
        Ok(names)
    }

    /// Adds the addresses that are near to an unknown one.
    pub fn push_near_addresses(
        &self,
        alloc: Global,
        text: &mut String,
        stated: &str,
    ) -> Result<(), AllocError> {
        let near = nearest_addresses(alloc, stated, &self.addresses, reach_of(stated))?;
        push_names(alloc, text, &self.addresses, &near)
    }

    /// Adds the outputs that are near to an unknown one.
    pub fn push_near_outputs(
        &self,
        alloc: Global,
        text: &mut String,
        stated: &str,
    ) -> Result<(), AllocError> {
        let near = nearest(alloc, stated, &self.outputs, reach_of(stated))?;
        push_names(alloc, text, &self.outputs, &near)
    }

    /// Makes the path to the output with this number in the `output_changes` of the plan.
    pub fn changed_output_path(&self, alloc: Global, number: usize) -> Result<String, AllocError> {
        let mut path = String::from_str(alloc, ".output_changes")?;
        let name = other_name(self.output_changes, number).unwrap_or("");
        push_name(alloc, &mut path, name)?;
        Ok(path)
    }

    /// Lists the deposed keys that the plan has at an address. The object that is not deposed
    /// counts as `none`.
    pub fn keys_text(&self, alloc: Global, address: &str) -> Result<String, AllocError> {
        let mut text = String::new(alloc);
        let mut count = 0usize;
        for (other, key) in &self.changes {
            if *other == address && count < MOST_KEYS {
                if count > 0 {
                    text.push_str(", ")?;
                }
                push_key(alloc, &mut text, *key)?;
                count += 1;
            }
        }
        Ok(text)
    }
}

/// Returns how many edits an unknown name may be away from a name that is suggested.
fn reach_of(stated: &str) -> usize {
    (stated.chars().count() / 3).max(1)
}

/// Adds the first of the names with these numbers.
fn push_names(
    alloc: Global,
    text: &mut String,
    all: &[&str],
    near: &[usize],
) -> Result<(), AllocError> {
    let shown = first_near(alloc, all, near)?;
    push_near(text, &shown)
}

/// Adds a deposed key, or `none`.
fn push_key(alloc: Global, text: &mut String, key: Option<&str>) -> Result<(), AllocError> {
    match key {
        Some(key) => {
            let value = Value::String(String::from_str(alloc, key)?);
            text.push_str(json_text(alloc, &value)?.as_str())
        }
        None => text.push_str("none"),
    }
}

/// Returns the elements of `resource_changes`.
fn elements_of(plan: Option<&Value>) -> &[Value] {
    let Some(plan) = plan else {
        return &[];
    };
    match plan.get(Name::ResourceChanges.text()) {
        Some(Value::Array(elements)) => elements.as_slice(),
        _ => &[],
    }
}

/// Returns a member that is a text.
pub fn text_at(value: &Value, name: Name) -> Option<&str> {
    value.get(name.text())?.as_str()
}

/// Returns the deposed key of an element. An empty key counts as absent.
fn key_at(element: &Value) -> Option<&str> {
    match text_at(element, Name::Deposed) {
        Some("") => None,
        stated => stated,
    }
}
