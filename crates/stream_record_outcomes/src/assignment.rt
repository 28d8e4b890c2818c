//! Which diagnostic each step has.
//!
//! Every `Err` means that memory was refused.

ghost use Rattle.std.specs.Prelude.{◌≡◌, IfOk};

use crate::taker::Taker;
use std::alloc::{AllocError, Global};
use std::marker::Model;

/// For each step of the plan the number of its diagnostic, and for each diagnostic whether a step
/// has it.
#[derive(Drop)]
pub struct Assignment {
    of_step: Vec<Option<usize>>,
    is_taken: Vec<bool>,
}

impl Model for Assignment {
    ghost use Rattle.stream_record_outcomes.specs.Assignment.{Assignment};

    ghost Value = { Assignment };

    ghost view = { λ it. record { of_step = it.of_step.items; is_taken = it.is_taken.items } };
}

impl Assignment {
    ghost use Rattle.stream_record_outcomes.specs.Assignment.{give, has_none, is_left, none_taken, note_number};

    /// No step has a diagnostic.
    pub fn new(alloc: Global, steps: usize, notes: usize) -> Result<Assignment, AllocError>
        ensures { IfOk result (λ assignment. assignment ≡ none_taken steps notes) }
    {
        Ok(Assignment {
            of_step: vec![in alloc; None; steps]?,
            is_taken: vec![in alloc; false; notes]?,
        })
    }

    /// Gives the step with this place the diagnostic with this number.
    pub fn give(&mut self, place: usize, number: usize)
        ensures { self.new ≡ give place number self.old }
    {
        if place < self.of_step.len() {
            self.of_step[place] = Some(number);
        }
        if number < self.is_taken.len() {
            self.is_taken[number] = true;
        }
    }

    /// The number of the diagnostic that the step with this place has.
    pub fn note_number(&self, place: usize) -> Option<usize>
        ensures { result ≡ note_number self.now place }
    {
        match self.of_step.get(place) {
            Some(number) => *number,
            None => None,
        }
    }

    /// Whether the step has no diagnostic.
    pub fn has_none(&self, taker: &Taker<'_>) -> bool
        ensures { result ≡ has_none self.now taker.now }
    {
        self.note_number(taker.place).is_none()
    }

    /// Whether there is a diagnostic with this number, and no step has it.
    pub fn is_left(&self, number: usize) -> bool
        ensures { result ≡ is_left self.now number }
    {
        match self.is_taken.get(number) {
            Some(is_taken) => !*is_taken,
            None => false,
        }
    }
}
