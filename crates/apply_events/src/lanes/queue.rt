//! Turns that wait, and turns that are ready.
//!
//! Every `Err` means that memory was refused.

ghost use Rattle.std.specs.Prelude.{◌≡◌, ◌+◌, ◌*◌, ◌<◌, ◌^◌, ◌++◌, [], ◌∷◌, ℕ, IfNone, IfOk, IfSome, List, None, OnOk, Option, length, map};
ghost use Rattle.std.specs.BinaryHeap.{heap_items};
ghost use Rattle.apply_events.specs.Waits.LaneTime.{first_lane_time};
ghost use Rattle.apply_events.specs.Waits.Queue.{Follow, HasPlace, IsDue, IsFirstDue, IsQueue, Stands, counts_of, none_done, with_step_done, with_waits_of, turn_waits, waiting_at};

pub mod followers;

use crate::lanes::lane_time::LaneTime;
use crate::lanes::queue::followers::Followers;
use crate::lanes::turn::Turn;
use apply_model::{Script, Wait};
use std::alloc::{AllocError, Global};
use std::cmp::Reverse;
use std::collections::BinaryHeap;

/// A turn that is ready, and since when.
#[derive(Clone, Copy, Debug, PartialEq, Eq, PartialOrd, Ord)]
pub struct ReadyTurn {
    /// When the turn is ready.
    pub at: LaneTime,
    /// The number of the turn, counted from 0 in the order of the plan.
    pub number: u32,
}

/// What a turn still waits for.
#[derive(Clone, Copy, Debug)]
pub struct Waiting {
    /// How many of its waits are not done.
    pub missing: u32,
    /// The earliest time at which the turn may begin: one round after the last of its waits that
    /// are done.
    pub at: LaneTime,
}

/// The turns of a plan by number: those that wait, and those that are ready.
#[derive(Drop)]
pub struct Queue {
    waiting: Vec<Waiting>,
    followers: Followers,
    ready: BinaryHeap<Reverse<ReadyTurn>>,
}

impl Queue {
    ghost use Rattle.apply_model.specs.declared.script.wait.Wait.{Wait};

    /// A queue of these turns, in a plan of so many changes. None of them was taken. `Err` where
    /// memory is refused.
    pub(crate) fn new(
        alloc: Global,
        changes: u32,
        script: &Script,
        turns: &[Turn],
    ) -> Result<Queue, AllocError>
        requires { length turns.now < 2 ^ 32 }
        ensures { IfOk result (λ queue. IsQueue (2 * changes) (map (turn_waits script.now) turns.now) none_done [] queue) }
    {
        let mut queue = Queue::with_room(alloc, changes, turns.len())?;
        for turn in turns {
            queue.add(script, *turn)?;
        }
        Ok(queue)
    }

    /// A queue without turns, with room for so many. Turns may wait for the steps of so many
    /// changes. `Err` where memory is refused.
    pub fn with_room(alloc: Global, changes: u32, turns: usize) -> Result<Queue, AllocError>
        ensures { IfOk result (λ queue. IsQueue (2 * changes) [] none_done [] queue) }
    {
        Ok(Queue {
            waiting: Vec::with_capacity(alloc, turns)?,
            followers: Followers::new(alloc, changes)?,
            ready: BinaryHeap::new(alloc),
        })
    }

    /// Adds a turn.
    fn add(&mut self, script: &Script, turn: Turn) -> Result<(), AllocError>
        requires { length self.old.waiting.items < 2 ^ 32 }
        ensures { OnOk result ((limit : ℕ) (names : List (List Wait)) → IsQueue limit names none_done [] self.old
            → IsQueue limit (names ++ turn_waits script.now turn ∷ []) none_done [] self.new) }
    {
        let number = self.waiting.len() as u32;
        let missing = self.followers.add_turn(script, turn, number)?;
        self.push_turn(number, missing)?;
        Ok(())
    }

    /// Adds a turn that waits for these steps. A step that is named again counts each time. `Err`
    /// where memory is refused, or where 2^32 steps are named.
    pub fn add_waits(&mut self, steps: &[Wait]) -> Result<(), AllocError>
        requires { length self.old.waiting.items < 2 ^ 32 }
        ensures { OnOk result ((limit : ℕ) (names : List (List Wait)) → IsQueue limit names none_done [] self.old
            → IsQueue limit (names ++ steps.now ∷ []) none_done [] self.new) }
    {
        let number = self.waiting.len() as u32;
        let missing = self.followers.add_each(steps, number)?;
        self.push_turn(number, missing)?;
        Ok(())
    }

    /// Adds a turn whose waits were added already. It is the last by number, and misses so many.
    fn push_turn(&mut self, number: u32, missing: u32) -> Result<(), AllocError>
        ensures { OnOk result ((limit : ℕ) (names : List (List Wait)) (turn : List Wait) → number ≡ length names → missing ≡ length turn
            → Follow limit (with_waits_of (counts_of names) number turn) self.old.followers
            → Stands names none_done [] first_lane_time [] self.old.waiting.items (heap_items self.old.ready)
            → IsQueue limit (names ++ turn ∷ []) none_done [] self.new) }
    {
        let at = LaneTime::first();
        self.waiting.push(Waiting { missing, at })?;
        if missing == 0 {
            self.ready.push(Reverse(ReadyTurn { at, number }))?;
        }
        Ok(())
    }

    /// Takes the turn that is ready first. Of several such turns it is the first in the plan.
    /// `None` where no turn is ready; more may be ready after another step is done.
    pub fn take(&mut self) -> Option<ReadyTurn>
        ensures some { IfSome result (λ one. (limit : ℕ) (names : List (List Wait)) (done : Wait → Option LaneTime) (started : List ℕ)
            → IsQueue limit names done started self.old
            → IsFirstDue names done started one × IsQueue limit names done (one.number ∷ started) self.new) }
        ensures none { IfNone result ((limit : ℕ) (names : List (List Wait)) (done : Wait → Option LaneTime) (started : List ℕ)
            → IsQueue limit names done started self.old → (number : ℕ) → IsDue names done started number → ⊥) }
    {
        Some(self.ready.pop()?.0)
    }

    /// Records that a step is done, and when. Turns that wait for it may become ready.
    pub fn complete(&mut self, step: Wait, at: LaneTime) -> Result<(), AllocError>
        requires round { at.round + 1 < 2 ^ 32 }
        requires known { (limit : ℕ) × (names : List (List Wait)) × (done : Wait → Option LaneTime) × (started : List ℕ)
            × HasPlace step limit × IsQueue limit names done started self.old × (done step ≡ None) }
        ensures { OnOk result ((limit : ℕ) (names : List (List Wait)) (done : Wait → Option LaneTime) (started : List ℕ)
            → HasPlace step limit → IsQueue limit names done started self.old → done step ≡ None
            → IsQueue limit names (with_step_done done step at) started self.new) }
    {
        let later = at.next_round();
        let mut place = self.followers.last_of(step);
        while place > 0 {
            let follower = self.followers.get(place);
            self.release(follower.turn, later)?;
            place = follower.before;
        }
        Ok(())
    }

    /// Records that one wait of a turn is done. The turn may not begin before that time.
    fn release(&mut self, number: u32, later: LaneTime) -> Result<(), AllocError>
        requires known { number < length self.old.waiting.items }
        requires some { 0 < (waiting_at self.old.waiting.items number).missing }
        ensures stands { OnOk result ((names : List (List Wait)) (done : Wait → Option LaneTime) (left : List ℕ) (started : List ℕ)
            → Stands names done (number ∷ left) later started self.old.waiting.items (heap_items self.old.ready)
            → Stands names done left later started self.new.waiting.items (heap_items self.new.ready)) }
        ensures followers { self.new.followers ≡ self.old.followers }
    {
        let before = self.waiting[number as usize];
        let missing = before.missing - 1;
        let at = before.at.later_of(later);
        self.waiting[number as usize] = Waiting { missing, at };
        if missing == 0 {
            self.ready.push(Reverse(ReadyTurn { at, number }))?;
        }
        Ok(())
    }
}
