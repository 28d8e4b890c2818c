//! The diagnostics of a stream.
//!
//! Every `Err` means that memory was refused.

ghost use Rattle.std.specs.Prelude.{◌≡◌, IfOk, map};
ghost use Rattle.stream_record_outcomes.specs.Assignment.{considered, is_of_errored_plan, is_of_partial_plan, left_from, without_partial};

use crate::assignment::Assignment;
use crate::circumstances::Circumstances;
use crate::copies::copied_note;
use crate::fate::is_warning;
use apply_json::is_text;
use apply_model::Note;
use std::alloc::{AllocError, Global};

/// The diagnostics, without those that every apply of such a plan has.
pub fn considered<'n>(
    alloc: Global,
    circumstances: &Circumstances,
    notes: &'n [Note],
) -> Result<Vec<&'n Note>, AllocError>
    ensures { IfOk result (λ kept. map (λ note. note.now) kept.items ≡ considered circumstances.now notes.now) }
{
    let others = if circumstances.is_partial {
        without_partial(notes)
    } else {
        notes
    };
    let mut kept = Vec::new(alloc);
    for note in others {
        if !(circumstances.is_errored && is_of_errored_plan(note)) {
            kept.push(note)?;
        }
    }
    Ok(kept)
}

/// The diagnostics without the last one, if that is of a partial plan.
fn without_partial(notes: &[Note]) -> &[Note]
    ensures { result.now ≡ without_partial notes.now }
{
    match notes.last() {
        Some(last) if is_of_partial_plan(last) => &notes[..notes.len() - 1],
        _ => notes,
    }
}

/// Whether it is the warning that ends the apply of a partial plan.
fn is_of_partial_plan(note: &Note) -> bool
    ensures { result ≡ is_of_partial_plan note.now }
{
    note.address.is_none()
        && is_warning(note.severity)
        && is_text(
            note.diag.summary.as_str(),
            "Applied changes may be incomplete",
        )
}

/// Whether it is the error of the apply of an errored plan.
fn is_of_errored_plan(note: &Note) -> bool
    ensures { result ≡ is_of_errored_plan note.now }
{
    note.address.is_none()
        && !is_warning(note.severity)
        && is_text(note.diag.summary.as_str(), "Cannot apply incomplete plan")
}

/// The diagnostics that no step has.
pub fn loose_notes(
    alloc: Global,
    notes: &[&Note],
    assignment: &Assignment,
) -> Result<Vec<Note>, AllocError>
    ensures { IfOk result (λ loose. loose.items ≡ left_from 0 (map (λ note. note.now) notes.now) assignment.now) }
{
    let mut loose = Vec::new(alloc);
    for (number, note) in notes.iter().enumerate() {
        if assignment.is_left(number) {
            loose.push(copied_note(alloc, note)?)?;
        }
    }
    Ok(loose)
}
