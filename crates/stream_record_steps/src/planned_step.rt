//! The steps of a plan.
//!
//! Every `Err` means that memory was refused.

ghost use Rattle.std.specs.Prelude.{◌≡◌, ◌++◌, IfOk, OnOk, length};
ghost use Rattle.stream_record_steps.specs.Steps.{planned_steps, steps_from};

use apply_model::{Change, Plan, StepKind};
use std::alloc::{AllocError, Global};
use std::marker::Model;

/// A step of a plan.
#[derive(Drop)]
pub struct PlannedStep<'a> {
    change: &'a Change,
    change_number: usize,
    number: u32,
    place: usize,
    kind: StepKind,
}

impl<'a> Model for PlannedStep<'a> {
    ghost use Rattle.stream_record_steps.specs.Steps.{PlannedStep};

    ghost Value = { PlannedStep };

    ghost view = { λ step. record { change = step.change.now; change_number = step.change_number; number = step.number; place = step.place; kind = step.kind } };
}

impl<'a> PlannedStep<'a> {
    ghost use Rattle.stream_record_steps.specs.Steps.{is_first_step, is_last_step};

    /// The change that the step is of.
    pub fn change(&self) -> &'a Change
        ensures { result.now ≡ self.now.change }
    {
        self.change
    }

    /// The number of the change in the plan, counted from 0.
    pub fn change_number(&self) -> usize
        ensures { result ≡ self.now.change_number }
    {
        self.change_number
    }

    /// The number of the step in its change, counted from 0.
    pub fn number(&self) -> u32
        ensures { result ≡ self.now.number }
    {
        self.number
    }

    /// The number of the step in the plan, counted from 0 over the steps of all changes.
    pub fn place(&self) -> usize
        ensures { result ≡ self.now.place }
    {
        self.place
    }

    /// The kind of the step.
    pub fn kind(&self) -> StepKind
        ensures { result ≡ self.now.kind }
    {
        self.kind
    }

    /// Whether the step is the first of its change.
    pub fn is_first(&self) -> bool
        ensures { result ≡ is_first_step self.now }
    {
        self.number == 0
    }

    /// Whether the step is the last of its change.
    pub fn is_last(&self) -> bool
        ensures { result ≡ is_last_step self.now }
    {
        self.number as usize + 1 == self.change.steps().len()
    }

    /// The same step.
    pub fn again(&self) -> PlannedStep<'a>
        ensures { result ≡ self.now }
    {
        PlannedStep {
            change: self.change,
            change_number: self.change_number,
            number: self.number,
            place: self.place,
            kind: self.kind,
        }
    }
}

/// The steps of all changes, in the plan's order.
pub fn planned_steps(alloc: Global, plan: &Plan) -> Result<Vec<PlannedStep<'_>>, AllocError>
    ensures { IfOk result (λ steps. steps.items ≡ planned_steps plan.now.changes) }
{
    let mut steps = Vec::new(alloc);
    for change_number in 0..plan.len() {
        push_steps(
            &mut steps,
            plan.change(change_number),
            change_number as usize,
        )?;
    }
    Ok(steps)
}

/// Adds the steps of a change.
fn push_steps<'a>(
    steps: &mut Vec<PlannedStep<'a>>,
    change: &'a Change,
    change_number: usize,
) -> Result<(), AllocError>
    ensures { OnOk result (steps.new.items ≡ steps.old.items ++ steps_from change.now change_number 0 (length steps.old.items) change.now.steps) }
{
    for (number, kind) in change.steps().iter().enumerate() {
        let place = steps.len();
        steps.push(PlannedStep {
            change,
            change_number,
            number: number as u32,
            place,
            kind: *kind,
        })?;
    }
    Ok(())
}
