//! Paths in the syntax of `jq`.

use crate::texts::value::json_text;
use input_validate::{Path, Segment};
use serde_json::Value;
use std::alloc::{AllocError, Global};

/// Returns the value that the first `steps` segments of a path lead to.
pub fn value_at<'a>(tree: &'a Value, path: &Path, steps: usize) -> Option<&'a Value> {
    let mut value = tree;
    for number in 0..path.len() {
        if number >= steps {
            return Some(value);
        }
        value = step_into(value, path.get(number))?;
    }
    Some(value)
}

/// Returns the value that one segment leads to.
fn step_into(value: &Value, segment: Segment) -> Option<&Value> {
    match segment {
        Segment::Member(name) => value.get(name.text()),
        Segment::Other(number) => value.as_object()?.values().nth(number),
        Segment::Item(number) => value.get(number),
    }
}

/// Returns the name of the member with this number. Members are in the order of their names' bytes.
pub fn other_name(value: Option<&Value>, number: usize) -> Option<&str> {
    match value?.as_object()?.keys().nth(number) {
        Some(name) => Some(name.as_str()),
        None => None,
    }
}

/// Makes the text of a path. `Err` means that memory was refused.
pub fn path_text(alloc: Global, tree: &Value, path: &Path) -> Result<String, AllocError> {
    let mut text = String::new(alloc);
    for number in 0..path.len() {
        match path.get(number) {
            Segment::Member(name) => push_name(alloc, &mut text, name.text())?,
            Segment::Other(other) => {
                let name = other_name(value_at(tree, path, number), other).unwrap_or("");
                push_name(alloc, &mut text, name)?;
            }
            Segment::Item(item) => text.push_str(format!(in alloc; "[{item}]")?.as_str())?,
        }
    }
    if text.is_empty() {
        text.push('.')?;
    }
    Ok(text)
}

/// Adds the segment of a member. `Err` means that memory was refused.
pub fn push_name(alloc: Global, text: &mut String, name: &str) -> Result<(), AllocError> {
    if is_identifier(name.as_bytes()) {
        text.push('.')?;
        return text.push_str(name);
    }
    if text.is_empty() {
        text.push('.')?;
    }
    text.push('[')?;
    let shown = json_text(alloc, &Value::String(String::from_str(alloc, name)?))?;
    text.push_str(shown.as_str())?;
    text.push(']')
}

/// Returns whether `jq` takes a name without quotes.
fn is_identifier(name: &[u8]) -> bool {
    match name.first() {
        Some(first) => !first.is_ascii_digit()
            && name
                .iter()
                .all(|byte| *byte == b'_' || byte.is_ascii_alphanumeric()),
        None => false,
    }
}
