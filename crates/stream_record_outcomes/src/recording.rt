//! The outcomes of the steps of a stream.
//!
//! Every `Err` means that memory was refused.

ghost use Rattle.std.specs.Prelude.{◌≡◌, IfOk, map, option_map};
ghost use Rattle.stream_record_steps.specs.Begun.{begun_at};
ghost use Rattle.std.specs.Option.{option_copied};
ghost use Rattle.stream_record_outcomes.specs.Assignment.{note_of_step};
ghost use Rattle.stream_record_outcomes.specs.Recording.{AreAllowed, notes_of_no_step, recorded_from, recorded_step, recorded_steps};

use crate::assignment::Assignment;
use crate::circumstances::Circumstances;
use crate::notes::{considered, loose_notes};
use crate::recorded_step::{RecordedStep, recorded_step};
use crate::sharing::assignment_of;
use apply_model::Note;
use std::alloc::{AllocError, Global};
use stream_record_steps::{BegunSteps, PlannedStep};

/// The steps of a stream, as a script states them, and the diagnostics of no step.
#[derive(Debug, Drop)]
pub struct RecordedOutcomes {
    /// For each step of the plan its outcome. `None` if it did not begin.
    pub steps: Vec<Option<RecordedStep>>,
    /// The diagnostics that no step has, in order.
    pub loose: Vec<Note>,
}

/// The outcomes of the steps that began, by all diagnostics of the stream.
///
/// Each outcome is one that a run takes for its step. `Err` where memory is refused.
pub fn outcomes(
    alloc: Global,
    begun: &BegunSteps<'_>,
    notes: &[Note],
    circumstances: &Circumstances,
) -> Result<RecordedOutcomes, AllocError>
    ensures steps { IfOk result (λ recorded. recorded.steps.items
        ≡ recorded_steps circumstances.now begun.now notes.now) }
    ensures loose { IfOk result (λ recorded. recorded.loose.items
        ≡ notes_of_no_step circumstances.now begun.now notes.now) }
    ensures allowed { IfOk result (λ recorded. AreAllowed begun.now.planned recorded.steps.items) }
{
    let notes = considered(alloc, circumstances, notes)?;
    let is_default_form = circumstances.is_default_form;
    let assignment = assignment_of(alloc, is_default_form, begun, &notes)?;
    let cut_off_at = circumstances.cut_off_at;
    let recorded = recorded_from(alloc, cut_off_at, begun, &notes, &assignment)?;
    let loose = loose_notes(alloc, &notes, &assignment)?;
    Ok(RecordedOutcomes {
        steps: recorded,
        loose,
    })
}

/// The outcomes of the steps.
fn recorded_from(
    alloc: Global,
    cut_off_at: Option<i64>,
    begun: &BegunSteps<'_>,
    notes: &[&Note],
    assignment: &Assignment,
) -> Result<Vec<Option<RecordedStep>>, AllocError>
    ensures { IfOk result (λ recorded. recorded.items
        ≡ recorded_from cut_off_at begun.now (map (λ note. note.now) notes.now) assignment.now 0 begun.now.planned) }
{
    let steps = begun.planned();
    let mut recorded = Vec::new(alloc);
    for (place, step) in steps.iter().enumerate() {
        recorded.push(recorded_at(alloc, cut_off_at, begun, notes, assignment, place, step)?)?;
    }
    Ok(recorded)
}

/// The outcome of the step with this number. `None` if it did not begin.
fn recorded_at(
    alloc: Global,
    cut_off_at: Option<i64>,
    begun: &BegunSteps<'_>,
    notes: &[&Note],
    assignment: &Assignment,
    place: usize,
    step: &PlannedStep<'_>,
) -> Result<Option<RecordedStep>, AllocError>
    ensures { IfOk result (λ recorded. recorded
        ≡ option_map (recorded_step cut_off_at step.now (note_of_step (map (λ note. note.now) notes.now) assignment.now place))
        (begun_at begun.now.by_step place)) }
{
    let Some(begun) = begun.step(place) else {
        return Ok(None);
    };
    let note = note_of_step(notes, assignment, place);
    Ok(Some(recorded_step(alloc, cut_off_at, step, note, begun)?))
}

/// The diagnostic that a step has.
fn note_of_step<'n>(notes: &[&'n Note], assignment: &Assignment, place: usize) -> Option<&'n Note>
    ensures { option_copied result ≡ note_of_step (map (λ note. note.now) notes.now) assignment.now place }
{
    let number = assignment.note_number(place)?;
    notes.get(number).copied()
}
