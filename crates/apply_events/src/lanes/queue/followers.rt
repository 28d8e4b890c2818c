//! The turns that wait for each step.
//!
//! Every `Err` means that memory was refused, or that a list is full.

ghost use Rattle.std.specs.Prelude.{◌≡◌, ◌+◌, ◌-◌, ◌*◌, ◌<◌, ◌≤◌, [], ◌∷◌, ℕ, IfNone, IfOk, IfSome, OnOk, length};
ghost use Rattle.apply_events.specs.Waits.Queue.{Follow, HasPlace, with_waits_of, follower_at, last_at, place_of, step_before, turn_waits};

use crate::lanes::turn::Turn;
use apply_model::{Script, Wait, Waits};
use std::alloc::{AllocError, Global};

/// A turn that waits for a step.
#[derive(Clone, Copy, Debug)]
pub struct Follower {
    /// The number of the turn.
    pub turn: u32,
    /// The place of the turn before it that waits for the same step. It is 0 where there is none.
    pub before: u32,
}

/// For each step, a chain of the turns that wait for it. Places count from 1 and fit 32 bits. One
/// more turn than fits is refused like refused memory. A script that was read states at most a
/// million waits.
#[derive(Drop)]
pub struct Followers {
    all: Vec<Follower>,
    /// For each step, the place of the last turn that waits for it, or 0. Each change has two
    /// steps.
    last: Vec<u32>,
}

impl Followers {
    ghost use Rattle.apply_model.specs.declared.script.wait.Wait.{Wait};

    /// No turn waits for any step of so many changes. `Err` where memory is refused.
    pub(crate) fn new(alloc: Global, changes: u32) -> Result<Followers, AllocError>
        ensures { IfOk result (λ followers. Follow (2 * changes) (λ name number. 0) followers) }
    {
        let last = vec![in alloc; 0; 2 * changes as usize]?;
        Ok(Followers {
            all: Vec::new(alloc),
            last,
        })
    }

    /// The number of the step. `None` where no change has it.
    fn known_number(&self, step: Wait) -> Option<usize>
        ensures some { IfSome result (λ number. HasPlace step (length self.now.last.items) × (number ≡ place_of step)) }
        ensures none { IfNone result (HasPlace step (length self.now.last.items) → ⊥) }
    {
        let number = number_of(step);
        if step.step < 2 && number < self.last.len() {
            Some(number)
        } else {
            None
        }
    }

    /// Adds a turn that waits for a step. A step that no change has is ignored.
    fn add(&mut self, step: Wait, turn: u32) -> Result<(), AllocError>
        ensures { OnOk result ((limit : ℕ) (count : Wait → ℕ → ℕ) → Follow limit count self.old → Follow limit (with_waits_of count turn (step ∷ [])) self.new) }
    {
        let Some(number) = self.known_number(step) else {
            return Ok(());
        };
        if self.all.len() >= u32::MAX as usize {
            return Err(AllocError);
        }
        let before = self.last[number];
        self.all.push(Follower { turn, before })?;
        self.last[number] = self.all.len() as u32;
        Ok(())
    }

    /// Adds a turn that waits for some steps.
    fn add_all(&mut self, steps: &Waits, turn: u32) -> Result<(), AllocError>
        ensures { OnOk result ((limit : ℕ) (count : Wait → ℕ → ℕ) → Follow limit count self.old → Follow limit (with_waits_of count turn steps.now) self.new) }
    {
        for item in 0..steps.len() {
            self.add(steps.get(item), turn)?;
        }
        Ok(())
    }

    /// Adds a turn that waits for each of these steps, and returns how many they are.
    pub(crate) fn add_each(&mut self, steps: &[Wait], turn: u32) -> Result<u32, AllocError>
        ensures follow { OnOk result ((limit : ℕ) (count : Wait → ℕ → ℕ) → Follow limit count self.old → Follow limit (with_waits_of count turn steps.now) self.new) }
        ensures count { IfOk result (λ count. count ≡ length steps.now) }
    {
        if steps.len() > u32::MAX as usize {
            return Err(AllocError);
        }
        for step in steps {
            self.add(*step, turn)?;
        }
        Ok(steps.len() as u32)
    }

    /// Adds a turn that waits for the step before its first step, if its change has one. Returns
    /// the number of such steps.
    fn add_before(&mut self, turn: Turn, number: u32) -> Result<u32, AllocError>
        ensures follow { OnOk result ((limit : ℕ) (count : Wait → ℕ → ℕ) → Follow limit count self.old → Follow limit (with_waits_of count number (step_before turn)) self.new) }
        ensures count { IfOk result (λ count. count ≡ length (step_before turn)) }
    {
        if turn.first == 0 {
            return Ok(0);
        }
        let before = Wait {
            change: turn.change,
            step: turn.first - 1,
        };
        self.add(before, number)?;
        Ok(1)
    }

    /// Adds a turn with all that its first step waits for. Returns how many steps are named, where
    /// repeated steps count each time.
    pub(crate) fn add_turn(
        &mut self,
        script: &Script,
        turn: Turn,
        number: u32,
    ) -> Result<u32, AllocError>
        ensures follow { OnOk result ((limit : ℕ) (count : Wait → ℕ → ℕ) → Follow limit count self.old
            → Follow limit (with_waits_of count number (turn_waits script.now turn)) self.new) }
        ensures count { IfOk result (λ count. count ≡ length (turn_waits script.now turn)) }
    {
        if turn.count == 0 {
            return Ok(0);
        }
        let before = self.add_before(turn, number)?;
        match script.outcome(turn.change, turn.first) {
            Some(outcome) => {
                self.add_all(&outcome.after, number)?;
                Ok(before + outcome.after.len())
            }
            None => Ok(before),
        }
    }

    /// The place of the last turn that waits for the step. It is 0 where no turn does.
    pub(crate) fn last_of(&self, step: Wait) -> u32
        requires { HasPlace step (length self.now.last.items) }
        ensures { result ≡ last_at self.now step }
    {
        self.last[number_of(step)]
    }

    /// The turn at that place, which counts from 1.
    pub(crate) fn get(&self, place: u32) -> Follower
        requires some { 0 < place }
        requires known { place ≤ length self.now.all.items }
        ensures { result ≡ follower_at self.now.all.items (place - 1) }
    {
        self.all[place as usize - 1]
    }
}

/// The number of the step among all steps: each change has two.
fn number_of(step: Wait) -> usize
    ensures { result ≡ place_of step }
{
    2 * step.change as usize + step.step as usize
}
