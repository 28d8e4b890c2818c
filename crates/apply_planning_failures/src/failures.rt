//! What failed while a plan was made.
//!
//! Every `Err` means that memory was refused.

ghost use Rattle.std.specs.Prelude.{◌≡◌, ◌++◌, [], false, if◌then◌else◌, IfOk, OnOk};
ghost use Rattle.std.specs.List.{list_any};
ghost use Rattle.std.specs.Option.{option_copied, option_map_or};
ghost use Rattle.apply_writer.specs.Stream.Terraform as stream;
ghost use Rattle.apply_planning_failures.specs.Planning.{failure_of, is_note};

use apply_events::What;
use apply_model::{Diag, Note, Severity, Text};
use apply_planning::Told;
use std::alloc::{AllocError, Global};

/// Appends a copy of the diagnostic of a failure, if the event is of one and the object failed.
pub(crate) fn push_failure(
    alloc: Global,
    notes: &mut Vec<Note>,
    is_note: bool,
    told: Option<&Told>,
) -> Result<(), AllocError>
    ensures { OnOk result (notes.new.items ≡ notes.old.items ++ (if is_note then failure_of (option_copied told.entry) else [])) }
{
    if is_note {
        if let Some(told) = told {
            if let Some(note) = &told.failure {
                notes.push(copy_of(alloc, note)?)?;
            }
        }
    }
    Ok(())
}

/// Whether the event is of a failure that is told as a diagnostic.
pub(crate) fn is_note(what: What) -> bool
    ensures { result ≡ is_note what }
{
    matches!(what, What::ErrorNote | What::WarnNote)
}

/// A copy of the diagnostic.
fn copy_of(alloc: Global, note: &Note) -> Result<Note, AllocError>
    ensures { IfOk result (λ copy. copy ≡ note.now) }
{
    let Diag {
        summary,
        detail,
        range,
        snippet,
    } = &note.diag;
    Ok(Note {
        severity: note.severity,
        diag: Diag {
            summary: Text::new(alloc, summary.as_str())?,
            detail: Text::new(alloc, detail.as_str())?,
            range: Text::of_option(alloc, range.as_ref().map(Text::as_str))?,
            snippet: Text::of_option(alloc, snippet.as_ref().map(Text::as_str))?,
        },
        address: Text::of_option(alloc, note.address())?,
    })
}

/// Whether one of the diagnostics is an error.
pub fn has_error(notes: &[Note]) -> bool
    ensures { result ≡ list_any stream.is_error notes.now }
{
    notes.iter().any(is_error)
}

/// Whether the diagnostic is an error.
fn is_error(note: &Note) -> bool
    ensures { result ≡ stream.is_error note.now }
{
    match note.severity {
        Severity::Error => true,
        Severity::Warning => false,
    }
}

/// Whether the object failed with an error.
pub(crate) fn has_failed(told: &Told) -> bool
    ensures { result ≡ option_map_or stream.is_error told.now.failure false }
{
    match &told.failure {
        Some(note) => is_error(note),
        None => false,
    }
}
