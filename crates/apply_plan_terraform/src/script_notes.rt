//! The diagnostics of no step in a script. An `Err` without a name means that memory was refused.

ghost use Rattle.std.specs.Prelude.{◌≡◌, IfOk, Some, map, option_map};
ghost use Rattle.std.specs.Option.{option_copied};
ghost use Rattle.serde_json.specs.View.{view};
ghost use Rattle.apply_plan.specs.Results.{Gives};
ghost use Rattle.apply_plan_terraform.specs.Notes as specs;

use crate::output_changes::text_of;
use crate::raw_output::equals_word;
use crate::texts::items::read_items;
use apply_json::{ReadFault, non_empty};
use apply_model::{Diag, Note, Severity, Text};
use apply_plan::ScriptError;
use serde_json::Value;
use std::alloc::{AllocError, Global};

/// Reads the diagnostics of a script from the value of its member.
///
/// `Err` with `ScriptError::BadShape` when the value is no array. `Err` with
/// `ScriptError::BadDiagnostic` when an item has a member that breaks its rule; the first such item
/// counts. `Err` with `ScriptError::Memory` when memory is refused.
pub fn notes_in(alloc: Global, value: Option<&Value>) -> Result<Vec<Note>, ScriptError>
    ensures { Gives ScriptError.Memory (λ notes. notes.items) result
        (specs.notes_in_script (option_map (λ value. view value.now) value.entry)) }
{
    match text_of(value) {
        Some(text) => if equals_word(Some(text), "null") {
            Ok(Vec::new(alloc))
        } else {
            notes_of_text(alloc, text)
        },
        None => Ok(Vec::new(alloc)),
    }
}

/// Reads the diagnostics from the JSON text of an array. Its errors are those of `notes_in`.
fn notes_of_text(alloc: Global, text: &str) -> Result<Vec<Note>, ScriptError>
    ensures { Gives ScriptError.Memory (λ notes. notes.items) result (specs.notes_of_text text.now) }
{
    match read_items(alloc, text) {
        Ok(Some(items)) => notes_of(alloc, items.as_slice()),
        Ok(None) => Err(ScriptError::BadShape(None)),
        Err(ReadFault::NotJson) => Err(ScriptError::BadShape(None)),
        Err(ReadFault::Memory) => Err(ScriptError::Memory),
    }
}

/// Reads a diagnostic from each item. `Err` with `ScriptError::BadDiagnostic` or
/// `ScriptError::Memory`, as in `notes_in`.
fn notes_of(alloc: Global, items: &[Value]) -> Result<Vec<Note>, ScriptError>
    ensures { Gives ScriptError.Memory (λ notes. notes.items) result (specs.notes_from 0 (map view items.now)) }
{
    let mut notes = Vec::new(alloc);
    for item in items {
        let Some(note) = note_in(alloc, item)? else {
            return Err(ScriptError::BadDiagnostic(notes.len()));
        };
        notes.push(note)?;
    }
    Ok(notes)
}

/// Reads a diagnostic. `None` when a member breaks its rule.
fn note_in(alloc: Global, item: &Value) -> Result<Option<Note>, AllocError>
    ensures { IfOk result (λ note. note ≡ specs.note_in (view item.now)) }
{
    let Some(severity) = severity_in(item) else {
        return Ok(None);
    };
    let Some(diag) = diag_in(alloc, item)? else {
        return Ok(None);
    };
    match decoded_or_empty(alloc, raw_member(item, "address"))? {
        Some(address) => Ok(Some(Note {
            severity,
            diag,
            address: Text::of_option(alloc, non_empty(address.as_str()))?,
        })),
        None => Ok(None),
    }
}

/// The severity of a diagnostic. `None` when the member is absent or has another value.
fn severity_in(item: &Value) -> Option<Severity>
    ensures { result ≡ specs.severity_in (view item.now) }
{
    let text = raw_member(item, "severity")?;
    if text == "\"error\"" {
        Some(Severity::Error)
    } else if text == "\"warning\"" {
        Some(Severity::Warning)
    } else {
        None
    }
}

/// Reads the texts of a diagnostic. `None` when a member breaks its rule.
fn diag_in(alloc: Global, item: &Value) -> Result<Option<Diag>, AllocError>
    ensures { IfOk result (λ diag. diag ≡ specs.diag_in (view item.now)) }
{
    let Some(summary) = decoded_member(alloc, item, "summary")? else {
        return Ok(None);
    };
    let Some(detail) = decoded_or_empty(alloc, raw_member(item, "detail"))? else {
        return Ok(None);
    };
    let Some(range) = object_or_none(raw_member(item, "range")) else {
        return Ok(None);
    };
    let Some(snippet) = object_or_none(raw_member(item, "snippet")) else {
        return Ok(None);
    };
    Ok(Some(Diag {
        summary,
        detail,
        range: Text::of_option(alloc, range)?,
        snippet: Text::of_option(alloc, snippet)?,
    }))
}

/// A member as JSON text. `null` counts as absent.
fn raw_member<'a>(item: &'a Value, name: &str) -> Option<&'a str>
    ensures { option_copied result ≡ specs.raw_member name.now (view item.now) }
{
    let text = item.get(name)?.as_str()?;
    if text == "null" { None } else { Some(text) }
}

/// Reads a member that must be a string. `None` when it is absent or no string.
fn decoded_member(alloc: Global, item: &Value, name: &str) -> Result<Option<Text>, AllocError>
    ensures { IfOk result (λ value. value ≡ specs.decoded_member name.now (view item.now)) }
{
    match raw_member(item, name) {
        Some(text) => decoded(alloc, text),
        None => Ok(None),
    }
}

/// Decodes an optional string. It is empty when absent. `None` when the JSON text is no string.
fn decoded_or_empty(alloc: Global, text: Option<&str>) -> Result<Option<Text>, AllocError>
    ensures { IfOk result (λ value. value ≡ specs.decoded_or_empty (option_copied text.entry)) }
{
    match text {
        Some(text) => decoded(alloc, text),
        None => match Text::new(alloc, "") {
            Ok(empty) => Ok(Some(empty)),
            Err(refused) => Err(refused),
        },
    }
}

/// Decodes a JSON text. `None` when the value is no string.
fn decoded(alloc: Global, text: &str) -> Result<Option<Text>, AllocError>
    ensures { IfOk result (λ value. value ≡ specs.decoded text.now) }
{
    match Value::from_str(alloc, text) {
        Ok(value) => Text::of_option(alloc, value.as_str()),
        Err(error) => if error.is_memory() {
            Err(AllocError)
        } else {
            Ok(None)
        },
    }
}

/// Checks an optional object, and leaves it as JSON text. `None` when the value is no object.
fn object_or_none(text: Option<&str>) -> Option<Option<&str>>
    ensures { option_map option_copied result ≡ specs.object_or_none (option_copied text.entry) }
{
    match text {
        Some(text) => if text.starts_with("{") {
            Some(Some(text))
        } else {
            None
        },
        None => Some(None),
    }
}
