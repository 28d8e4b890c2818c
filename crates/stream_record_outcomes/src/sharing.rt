//! Gives the diagnostics to the steps.
//!
//! Every `Err` means that memory was refused.

ghost use Rattle.std.specs.Prelude.{◌≡◌, ◌+◌, ◌<◌, IfOk, IfSome, Some, drop, filter, length, map, option_map, position, slice_get};
ghost use Rattle.std.specs.List.{find};
ghost use Rattle.stream_record_outcomes.specs.Assignment.{along, assigned, assignment_of, choice, first_left, fits, is_in_turn, share_left, takes_read, with_choice};

use crate::assignment::Assignment;
use crate::fit::Fit;
use crate::taker::{Taker, takers_of};
use crate::turn::Turn;
use apply_model::{Note, StepKind};
use std::alloc::{AllocError, Global};
use stream_record_steps::BegunSteps;

/// Which step has which of the diagnostics that are considered.
pub fn assignment_of(
    alloc: Global,
    is_default_form: bool,
    begun: &BegunSteps<'_>,
    notes: &[&Note],
) -> Result<Assignment, AllocError>
    ensures { IfOk result (λ assignment. assignment
        ≡ assignment_of is_default_form begun.now (map (λ note. note.now) notes.now)) }
{
    let steps = begun.planned().len();
    let ended = takers_of(alloc, is_default_form, begun, begun.ends())?;
    let started = takers_of(alloc, is_default_form, begun, begun.begins())?;
    assigned(alloc, notes, steps, &ended, &started)
}

fn assigned(
    alloc: Global,
    notes: &[&Note],
    steps: usize,
    ended: &[Taker<'_>],
    started: &[Taker<'_>],
) -> Result<Assignment, AllocError>
    ensures { IfOk result (λ assignment. assignment ≡ assigned (map (λ note. note.now) notes.now) steps ended.now started.now) }
{
    let mut assignment = Assignment::new(alloc, steps, notes.len())?;
    give_along(notes, ended, started, &mut assignment);
    share_left(notes, ended, Turn::Failed, &mut assignment);
    share_left(notes, started, Turn::OpenReads, &mut assignment);
    share_left(notes, started, Turn::OtherOpen, &mut assignment);
    Ok(assignment)
}

/// Goes along the diagnostics: each goes to the first of the ended steps that it fits, and the next
/// one to a step after that. Else it goes to the first read without an end that has none and that
/// it fits. The first diagnostic that fits none ends this.
fn give_along(
    notes: &[&Note],
    ended: &[Taker<'_>],
    started: &[Taker<'_>],
    assignment: &mut Assignment,
)
    ensures { assignment.new ≡ along (map (λ note. note.now) notes.now) 0 ended.now started.now assignment.old }
{
    let mut left = ended;
    for (number, note) in notes.iter().enumerate() {
        if let Some(count) = position_of_fit(left, note) {
            assignment.give(place_at(left, count), number);
            left = after(left, count);
        } else if let Some(place) = free_read(started, note, assignment) {
            assignment.give(place, number);
        } else {
            return;
        }
    }
}

/// The number in the plan of the step at this position.
fn place_at(takers: &[Taker<'_>], position: usize) -> usize
    requires { position < length takers.now }
    ensures { Some result ≡ option_map (λ taker. taker.place) (slice_get takers.now position) }
{
    let taker = &takers[position];
    taker.place
}

/// The steps after the one at this position.
fn after<'t, 'p>(takers: &'t [Taker<'p>], position: usize) -> &'t [Taker<'p>]
    requires { position < length takers.now }
    ensures { result.now ≡ drop (position + 1) takers.now }
{
    &takers[position + 1..]
}

/// The place among the steps of the first that the diagnostic fits.
fn position_of_fit(ended: &[Taker<'_>], note: &Note) -> Option<usize>
    ensures value { result ≡ position (λ taker. fits taker.fit note.now) ended.now }
    ensures bound { IfSome result (λ place. place < length ended.now) }
{
    ended.iter().position(|taker| taker.is_fit(note))
}

/// The place of the first read without an end that has no diagnostic and that this one fits.
fn free_read(started: &[Taker<'_>], note: &Note, assignment: &Assignment) -> Option<usize>
    ensures { result ≡ option_map (λ taker. taker.place) (find (takes_read assignment.now note.now) started.now) }
{
    for taker in started {
        if takes_read(assignment, note, taker) {
            return Some(taker.place);
        }
    }
    None
}

/// Whether it is a read without an end that has no diagnostic and that this one fits.
fn takes_read(assignment: &Assignment, note: &Note, taker: &Taker<'_>) -> bool
    ensures { result ≡ takes_read assignment.now note.now taker.now }
{
    taker.is_open_read() && assignment.has_none(taker) && taker.is_fit(note)
}

/// Gives what is left to the steps whose turn it is. Each of these looks through the diagnostics.
fn share_left(notes: &[&Note], takers: &[Taker<'_>], turn: Turn, assignment: &mut Assignment)
    ensures { assignment.new ≡ share_left (map (λ note. note.now) notes.now) (filter (is_in_turn turn) takers.now) assignment.old }
{
    for taker in takers {
        if turn.has(taker) {
            give_choice(notes, taker, assignment);
        }
    }
}

/// Gives a step that has no diagnostic the one that it takes, if there is one.
fn give_choice(notes: &[&Note], taker: &Taker<'_>, assignment: &mut Assignment)
    ensures { assignment.new ≡ with_choice (map (λ note. note.now) notes.now) taker.now assignment.old }
{
    if assignment.has_none(taker) {
        if let Some(number) = choice(notes, assignment, taker) {
            assignment.give(taker.place, number);
        }
    }
}

/// The number of the diagnostic that the step takes of those that are left.
fn choice(notes: &[&Note], assignment: &Assignment, taker: &Taker<'_>) -> Option<usize>
    ensures { result ≡ choice (map (λ note. note.now) notes.now) assignment.now taker.now }
{
    if let Some(number) = first_left(notes, assignment, &Fit::error(taker.fit.address)) {
        return Some(number);
    }
    if taker.has_failed && taker.kind.is_delete() {
        first_left(notes, assignment, &Fit::error(taker.other_address()))
    } else if taker.kind == StepKind::Read {
        first_left(notes, assignment, &taker.fit)
    } else {
        None
    }
}

/// The number of the first diagnostic that no step has and that is one of these.
fn first_left(notes: &[&Note], assignment: &Assignment, fit: &Fit<'_>) -> Option<usize>
    ensures { result ≡ first_left (map (λ note. note.now) notes.now) assignment.now fit.now }
{
    for (number, note) in notes.iter().enumerate() {
        if assignment.is_left(number) && fit.fits(note) {
            return Some(number);
        }
    }
    None
}
