//! Copies of texts and diagnostics.
//!
//! Every `Err` means that memory was refused.

ghost use Rattle.std.specs.Prelude.{◌≡◌, IfOk};

use apply_model::{Diag, Note, Text};
use std::alloc::{AllocError, Global};

pub fn copied_text(alloc: Global, text: &Text) -> Result<Text, AllocError>
    ensures { IfOk result (λ copy. copy ≡ text.now) }
{
    Text::new(alloc, text.as_str())
}

/// A copy of the text, if there is one.
fn copied_if(alloc: Global, text: &Option<Text>) -> Result<Option<Text>, AllocError>
    ensures { IfOk result (λ copy. copy ≡ text.now) }
{
    match text {
        Some(text) => Ok(Some(copied_text(alloc, text)?)),
        None => Ok(None),
    }
}

pub fn copied_diag(alloc: Global, diag: &Diag) -> Result<Diag, AllocError>
    ensures { IfOk result (λ copy. copy ≡ diag.now) }
{
    Ok(Diag {
        summary: copied_text(alloc, &diag.summary)?,
        detail: copied_text(alloc, &diag.detail)?,
        range: copied_if(alloc, &diag.range)?,
        snippet: copied_if(alloc, &diag.snippet)?,
    })
}

pub fn copied_note(alloc: Global, note: &Note) -> Result<Note, AllocError>
    ensures { IfOk result (λ copy. copy ≡ note.now) }
{
    Ok(Note {
        severity: note.severity,
        diag: copied_diag(alloc, &note.diag)?,
        address: copied_if(alloc, &note.address)?,
    })
}
