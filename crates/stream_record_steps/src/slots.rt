//! What is known of each step of a plan.

ghost use Rattle.std.specs.Prelude.{◌≡◌, IfOk, None, OnOk, OnErr, Some, map, option_map, slice_set};
ghost use Rattle.std.specs.Option.{option_copied};
ghost use Rattle.stream_record_steps.specs.Begun.{begun_at, busy_at, busy_count, is_busy, is_left};
ghost use Rattle.stream_record_steps.specs.UnderWay.{ended, plus_fact, with_end, with_fact};

use crate::begun_step::{BegunStep, StepEnd};
use crate::kinds::is_kind;
use crate::planned_step::PlannedStep;
use crate::step_facts::StepFact;
use apply_model::StepKind;
use std::alloc::{AllocError, Global};
use std::marker::Model;

/// What is known of each step of a plan, by place. Contracts see a list.
#[derive(Drop)]
pub struct Slots {
    slots: Vec<Option<BegunStep>>,
    /// How many creates, updates and deletes are under way.
    busy: usize,
}

impl Model for Slots {
    ghost use Rattle.std.specs.Prelude.{◌≡◌, List, Option};
    ghost use Rattle.stream_record_steps.specs.Begun.{busy_count};
    ghost use Rattle.stream_record_steps.specs.declared.begun_step.BegunStep.{BegunStep};

    ghost Value = { List (Option BegunStep) };

    ghost view = { λ it. it.slots.items };

    ghost invariant = { λ it. it.busy ≡ busy_count it.slots.items };
}

impl Slots {
    /// None of these steps began. `Err` where memory is refused.
    pub fn new(alloc: Global, steps: &[PlannedStep<'_>]) -> Result<Slots, AllocError>
        ensures { IfOk result (λ slots. slots ≡ map (λ step. None) steps.now) }
    {
        let mut slots = Vec::new(alloc);
        for _step in steps {
            slots.push(None)?;
        }
        Ok(Slots { slots, busy: 0 })
    }

    /// What is known of the step at a place. `None` if it did not begin.
    pub fn get(&self, place: usize) -> Option<&BegunStep>
        ensures { option_copied result ≡ begun_at self.now place }
    {
        match self.slots.get(place) {
            Some(slot) => slot.as_ref(),
            None => None,
        }
    }

    /// Whether there is a step at the place, and no start has taken it.
    pub fn is_left(&self, place: usize) -> bool
        ensures { result ≡ is_left self.now place }
    {
        match self.slots.get(place) {
            Some(slot) => slot.is_none(),
            None => false,
        }
    }

    /// The step at the place begins.
    pub fn begin(&mut self, place: usize, step: BegunStep)
        ensures { self.new ≡ slice_set self.old place (Some step) }
    {
        let before = busy_at(&self.slots, place);
        put(&mut self.slots, place, Some(step));
        self.busy = self.busy - before + busy_at(&self.slots, place);
    }

    /// Adds a fact about the step at the place, if it began. `Err` where memory is refused: nothing
    /// changes then.
    pub fn add_fact(&mut self, place: usize, fact: StepFact) -> Result<(), AllocError>
        ensures ok { OnOk result (self.new ≡ with_fact place fact self.old) }
        ensures err { OnErr result (self.new ≡ self.old) }
    {
        add_fact(&mut self.slots, place, fact)
    }

    /// The step at the place ends, if it began.
    pub fn end(&mut self, place: usize, end: StepEnd)
        ensures { self.new ≡ with_end place end self.old }
    {
        let before = busy_at(&self.slots, place);
        end_at(&mut self.slots, place, end);
        self.busy = self.busy - before + busy_at(&self.slots, place);
    }

    /// How many creates, updates and deletes are under way.
    pub fn busy(&self) -> usize
        ensures { result ≡ busy_count self.now }
    {
        self.busy
    }
}

/// 1 if a create, update or delete is under way at the place, else 0.
fn busy_at(slots: &[Option<BegunStep>], place: usize) -> usize
    ensures { result ≡ busy_at slots.now place }
{
    match slots.get(place) {
        Some(Some(step)) if is_busy(step) => 1,
        _ => 0,
    }
}

/// Whether a create, update or delete is under way.
fn is_busy(step: &BegunStep) -> bool
    ensures { result ≡ is_busy (Some step.now) }
{
    step.end.is_none() && !is_kind(StepKind::Read, step.kind)
}

/// Puts a slot at the place, if there is one.
fn put(slots: &mut Vec<Option<BegunStep>>, place: usize, slot: Option<BegunStep>)
    ensures { slots.new.items ≡ slice_set slots.old.items place slot }
{
    if let Some(old) = slots.get_mut(place) {
        *old = slot;
    }
}

/// Adds a fact about the step at the place, if it began. `Err` where memory is refused: nothing
/// changes then.
fn add_fact(
    slots: &mut Vec<Option<BegunStep>>,
    place: usize,
    fact: StepFact,
) -> Result<(), AllocError>
    ensures ok { OnOk result (slots.new.items ≡ with_fact place fact slots.old.items) }
    ensures err { OnErr result (slots.new.items ≡ slots.old.items) }
{
    match slots.get_mut(place) {
        Some(slot) => add_to(slot, fact),
        None => Ok(()),
    }
}

/// The step at the place ends, if it began.
fn end_at(slots: &mut Vec<Option<BegunStep>>, place: usize, end: StepEnd)
    ensures { slots.new.items ≡ with_end place end slots.old.items }
{
    if let Some(slot) = slots.get_mut(place) {
        end_step(slot, end);
    }
}

/// Adds a fact about the step, if it began. `Err` where memory is refused: nothing changes then.
fn add_to(slot: &mut Option<BegunStep>, fact: StepFact) -> Result<(), AllocError>
    ensures ok { OnOk result (slot.new ≡ option_map (plus_fact fact) slot.old) }
    ensures err { OnErr result (slot.new ≡ slot.old) }
{
    match slot {
        Some(step) => step.facts.push(fact),
        None => Ok(()),
    }
}

/// The step ends, if it began.
fn end_step(slot: &mut Option<BegunStep>, end: StepEnd)
    ensures { slot.new ≡ option_map (ended end) slot.old }
{
    if let Some(step) = slot {
        step.end = Some(end);
    }
}
