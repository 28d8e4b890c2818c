//! Errors and warnings. Every `Err` means that memory was refused.

ghost use Rattle.std.specs.Prelude.{◌≡◌, IfOk, unwrap_or};
ghost use Rattle.std.specs.Option.{option_copied};
ghost use Rattle.serde_json.specs.View.{view};
ghost use Rattle.stream_record_lines.specs.JsonMembers.{if_object, is_object, is_shallow};
ghost use Rattle.stream_record_lines.specs.Messages.{diagnostic_address, diagnostic_of, note_of, object_json, severity_named, text_or_empty};
ghost use Rattle.stream_record_lines.specs.declared.event.Event.TheVariants as event_variant;

use crate::event::Event;
use crate::json_member::read_member_json;
use crate::members::diagnostic_text;
use apply_json::{Reader, Scratch, is_text, skip_value};
use apply_json_tree::members::{member, non_empty_text_member};
use apply_model::{Diag, Note, Severity, Text};
use serde_json::Value;
use std::alloc::{AllocError, Global};

/// How deep a range or a snippet may nest, so that a script can repeat it everywhere.
const MAX_NESTING: usize = 119;

/// What a diagnostic states. Only errors and warnings are of use.
pub fn diagnostic_event(
    alloc: Global,
    scratch: &mut Scratch,
    text: &[u8],
    tree: &Value,
) -> Result<Event, AllocError>
    ensures { IfOk result (λ event. event ≡ unwrap_or (diagnostic_of text.now (view tree.now)) event_variant.Other) }
{
    let Some(word) = diagnostic_text(tree, "severity") else {
        return Ok(Event::Other);
    };
    let Some(severity) = severity_named(word) else {
        return Ok(Event::Other);
    };
    let note = read_note(alloc, scratch, text, tree, severity)?;
    Ok(Event::Diagnostic(note))
}

fn severity_named(word: &str) -> Option<Severity>
    ensures { result ≡ severity_named word.now }
{
    if is_text(word, "error") {
        Some(Severity::Error)
    } else if is_text(word, "warning") {
        Some(Severity::Warning)
    } else {
        None
    }
}

/// Reads a diagnostic of this severity.
fn read_note(
    alloc: Global,
    scratch: &mut Scratch,
    text: &[u8],
    tree: &Value,
    severity: Severity,
) -> Result<Note, AllocError>
    ensures { IfOk result (λ note. note ≡ note_of text.now (view tree.now) severity) }
{
    let summary = Text::new(alloc, text_or_empty(tree, "summary"))?;
    let detail = Text::new(alloc, text_or_empty(tree, "detail"))?;
    let address = Text::of_option(alloc, diagnostic_address(tree))?;
    let range = object_json(alloc, scratch, "range", text)?;
    let snippet = object_json(alloc, scratch, "snippet", text)?;
    Ok(Note {
        severity,
        diag: Diag {
            summary,
            detail,
            range,
            snippet,
        },
        address,
    })
}

/// A text of `diagnostic`, empty if it is missing.
fn text_or_empty<'a>(tree: &'a Value, name: &str) -> &'a str
    ensures { result.now ≡ text_or_empty name.now (view tree.now) }
{
    diagnostic_text(tree, name).unwrap_or("")
}

/// The address that the diagnostic is about. `None` if it is missing or empty.
fn diagnostic_address(tree: &Value) -> Option<&str>
    ensures { option_copied result ≡ diagnostic_address (view tree.now) }
{
    non_empty_text_member(member(tree, "diagnostic")?, "address")
}

/// The JSON text of a member of `diagnostic`, if it is an object that a script can repeat.
fn object_json(
    alloc: Global,
    scratch: &mut Scratch,
    name: &str,
    text: &[u8],
) -> Result<Option<Text>, AllocError>
    ensures { IfOk result (λ found. found ≡ object_json name.now text.now) }
{
    let Some(diagnostic) = read_member_json(alloc, scratch, "diagnostic", text)? else {
        return Ok(None);
    };
    let Some(json) = read_member_json(alloc, scratch, name, diagnostic.as_bytes())? else {
        return Ok(None);
    };
    if_object(alloc, scratch, json.as_str())
}

/// A copy of the JSON text, if it is that of an object that does not nest too deep.
fn if_object(alloc: Global, scratch: &mut Scratch, json: &str) -> Result<Option<Text>, AllocError>
    ensures { IfOk result (λ found. found ≡ if_object json.now) }
{
    if is_object(json) && is_shallow(scratch, json)? {
        Ok(Some(Text::new(alloc, json)?))
    } else {
        Ok(None)
    }
}

/// Whether the JSON text is that of an object.
fn is_object(json: &str) -> bool
    ensures { result ≡ is_object json.now }
{
    match json.as_bytes().first() {
        Some(byte) => *byte == b'{',
        None => false,
    }
}

/// Whether the JSON text nests no deeper than a script can repeat.
fn is_shallow(scratch: &mut Scratch, json: &str) -> Result<bool, AllocError>
    ensures { IfOk result (λ is. is ≡ is_shallow json.now) }
{
    let mut reader = Reader::new(json, scratch)?;
    Ok(skip_value(&mut reader, MAX_NESTING).is_ok())
}
