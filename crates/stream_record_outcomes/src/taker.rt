//! The steps that may have a diagnostic.
//!
//! Every `Err` means that memory was refused.

ghost use Rattle.std.specs.Prelude.{◌≡◌, IfOk, false};
ghost use Rattle.std.specs.Option.{option_copied, option_map_or};
ghost use Rattle.stream_record_outcomes.specs.Assignment.{is_failed_end, taker_at, taker_with, takers_of};

use crate::fit::{Fit, fit_of};
use apply_model::{Note, StepKind};
use std::alloc::{AllocError, Global};
use std::marker::Model;
use stream_record_steps::{BegunStep, BegunSteps, EndResult, PlannedStep};

/// A step that may have a diagnostic.
#[derive(Drop)]
pub struct Taker<'a> {
    /// The number of the step in the plan.
    pub place: usize,
    pub kind: StepKind,
    pub address: &'a str,
    pub has_end: bool,
    pub has_failed: bool,
    /// The diagnostics that fit it.
    pub fit: Fit<'a>,
}

impl<'a> Model for Taker<'a> {
    ghost use Rattle.stream_record_outcomes.specs.Assignment.{Taker};

    ghost Value = { Taker };

    ghost view = { λ taker. record {
      place = taker.place;
      kind = taker.kind;
      address = taker.address.now;
      has_end = taker.has_end;
      has_failed = taker.has_failed;
      fit = taker.fit;
    } };
}

impl<'a> Taker<'a> {
    ghost use Rattle.stream_record_outcomes.specs.Assignment.{fits, is_open_read, is_other_open, other_address};

    /// Whether the diagnostic fits the step.
    pub fn is_fit(&self, note: &Note) -> bool
        ensures { result ≡ fits self.now.fit note.now }
    {
        self.fit.fits(note)
    }

    /// Whether it is a read without an end.
    pub fn is_open_read(&self) -> bool
        ensures { result ≡ is_open_read self.now }
    {
        !self.has_end && self.kind == StepKind::Read
    }

    /// Whether it is another step without an end.
    pub fn is_other_open(&self) -> bool
        ensures { result ≡ is_other_open self.now }
    {
        !self.has_end && self.kind != StepKind::Read
    }

    /// The address of the step where fitting diagnostics have none, and no address where they have
    /// one.
    pub fn other_address(&self) -> Option<&'a str>
        ensures { option_copied result ≡ other_address self.now }
    {
        match self.fit.address {
            Some(_) => None,
            None => Some(self.address),
        }
    }
}

/// The steps with these numbers, without those that no diagnostic fits.
pub fn takers_of<'a>(
    alloc: Global,
    is_default_form: bool,
    begun: &BegunSteps<'a>,
    places: &[usize],
) -> Result<Vec<Taker<'a>>, AllocError>
    ensures { IfOk result (λ takers. takers.items ≡ takers_of is_default_form begun.now places.now) }
{
    let mut takers = Vec::new(alloc);
    for place in places {
        if let Some(taker) = taker_at(is_default_form, begun, *place) {
            takers.push(taker)?;
        }
    }
    Ok(takers)
}

/// The step with this number, if diagnostics fit it.
fn taker_at<'a>(is_default_form: bool, begun: &BegunSteps<'a>, place: usize) -> Option<Taker<'a>>
    ensures { result ≡ taker_at is_default_form begun.now place }
{
    let step = begun.planned().get(place)?;
    let begun = begun.step(place)?;
    let fit = fit_of(is_default_form, step, begun)?;
    Some(taker_with(place, step, begun, fit))
}

fn taker_with<'a>(
    place: usize,
    step: &PlannedStep<'a>,
    begun: &BegunStep,
    fit: Fit<'a>,
) -> Taker<'a>
    ensures { result ≡ taker_with place step.now begun.now fit.entry }
{
    Taker {
        place,
        kind: step.kind(),
        address: step.change().address(),
        has_end: begun.end.is_some(),
        has_failed: has_failed(begun),
        fit,
    }
}

/// Whether the step errored.
fn has_failed(begun: &BegunStep) -> bool
    ensures { result ≡ option_map_or (λ end. is_failed_end end.result) begun.now.end false }
{
    match &begun.end {
        Some(end) => is_failed_end(&end.result),
        None => false,
    }
}

fn is_failed_end(end: &EndResult) -> bool
    ensures { result ≡ is_failed_end end.now }
{
    match end {
        EndResult::Completed { .. } => false,
        EndResult::Failed => true,
    }
}
