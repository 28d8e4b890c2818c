//! Suggestions of names that may be meant.
//!
//! Every `Err` means that memory was refused.

use crate::texts::jq_path::{other_name, value_at};
use crate::texts::value::json_text;
use input_validate::{Finding, Name, Segment, known_names, nearest};
use serde_json::Value;
use std::alloc::{AllocError, Global};

/// How many names are suggested.
const MOST_NEAR: usize = 3;

/// Makes the warning for a member that no run reads, with the nearest known names.
pub fn not_read_text(alloc: Global, tree: &Value, finding: &Finding) -> Result<String, AllocError> {
    let mut text = String::from_str(alloc, "is not read")?;
    let before = finding.path.len().saturating_sub(1);
    if let Some(name) = ignored_name(tree, finding, before) {
        let mut names = Vec::new(alloc);
        let (around, within) = last_members(finding, before);
        for rule in known_names(around, within) {
            names.push(rule.text())?;
        }
        let reach = (name.chars().count() / 2).max(1);
        let near = nearest(alloc, name, &names, reach)?;
        let shown = first_near(alloc, &names, &near)?;
        push_near(&mut text, &shown)?;
    }
    Ok(text)
}

/// Returns the name of the member that the path leads to. `before` is the number of segments in
/// front of the last one.
fn ignored_name<'a>(tree: &'a Value, finding: &Finding, before: usize) -> Option<&'a str> {
    if before >= finding.path.len() {
        return None;
    }
    match finding.path.get(before) {
        Segment::Other(number) => other_name(value_at(tree, &finding.path, before), number),
        _ => None,
    }
}

/// Returns the last two members among the first `before` segments of the path.
fn last_members(finding: &Finding, before: usize) -> (Option<Name>, Option<Name>) {
    let mut around = None;
    let mut within = None;
    for number in 0..finding.path.len() {
        if number < before {
            if let Segment::Member(name) = finding.path.get(number) {
                around = within;
                within = Some(name);
            }
        }
    }
    (around, within)
}

/// Returns the first of the near names, as JSON.
pub fn first_near(
    alloc: Global,
    names: &[&str],
    near: &[usize],
) -> Result<Vec<String>, AllocError> {
    let mut shown = Vec::new(alloc);
    for place in near.iter().take(MOST_NEAR) {
        let name = names.get(*place).copied().unwrap_or("");
        let value = Value::String(String::from_str(alloc, name)?);
        shown.push(json_text(alloc, &value)?)?;
    }
    Ok(shown)
}

/// Adds the names that may be meant to a text.
pub fn push_near(text: &mut String, shown: &[String]) -> Result<(), AllocError> {
    for (number, name) in shown.iter().enumerate() {
        text.push_str(match (shown.len(), number) {
            (1, _) => "; is ",
            (_, 0) => "; near it are ",
            _ => ", ",
        })?;
        text.push_str(name.as_str())?;
    }
    if shown.len() == 1 {
        text.push_str(" meant?")?;
    }
    Ok(())
}
