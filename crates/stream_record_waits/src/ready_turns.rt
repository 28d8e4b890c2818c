//! The turns that are ready, with the first of them at hand.

ghost use Rattle.std.specs.Prelude.{◌≡◌, ◌≢◌, ◌<◌, ◌≤◌, ◌^◌, IfOk, ℕ};
ghost use Rattle.stream_record_waits.specs.ReadyTurns.{first_of, goes_first};

use crate::course::ReadyTurn;
use std::alloc::{AllocError, Global};

/// The turn of each step, if it is ready, in a tournament tree. The root is the turn that goes
/// first. A change of one turn takes one comparison for each level of the tree.
#[derive(Drop)]
pub struct ReadyTurns {
    /// The number of steps.
    pub count: usize,
    /// The turn of a step is the node `count + step`. Each node from 1 to `count - 1` is the turn
    /// that goes first of its two children, the nodes `2 * node` and `2 * node + 1`.
    pub nodes: Vec<Option<ReadyTurn>>,
}

impl ReadyTurns {
    ghost use Rattle.stream_record_waits.specs.ReadyTurns.{IsFirstIn, IsTree, turn_in};

    /// No turn is ready, of so many steps. `Err` where memory is refused.
    pub(crate) fn none(alloc: Global, count: usize) -> Result<ReadyTurns, AllocError>
        requires { count ≤ 2 ^ 24 }
        ensures tree { IfOk result (λ turns. IsTree turns) }
        ensures count { IfOk result (λ turns. turns.count ≡ count) }
    {
        Ok(ReadyTurns {
            count,
            nodes: vec![in alloc; None; 2 * count]?,
        })
    }

    /// The turn that goes first, if one is ready.
    pub(crate) fn first(&self) -> Option<ReadyTurn>
        requires { IsTree self.now }
        ensures { IsFirstIn self.now result }
    {
        if self.count == 0 { None } else { self.nodes[1] }
    }

    /// From now on this is the turn of a step, if it is ready.
    pub(crate) fn set(&mut self, step: usize, turn: Option<ReadyTurn>)
        requires tree { IsTree self.old }
        requires step { step < self.old.count }
        ensures tree { IsTree self.new }
        ensures count { self.new.count ≡ self.old.count }
        ensures turn { turn_in self.new step ≡ turn }
        ensures others { (other : ℕ) → other < self.old.count → other ≢ step → turn_in self.new other ≡ turn_in self.old other }
    {
        let mut node = self.count + step;
        self.nodes[node] = turn;
        while node > 1 {
            node /= 2;
            self.nodes[node] = first_of(self.nodes[2 * node], self.nodes[2 * node + 1]);
        }
    }
}

/// The turn that goes first of two turns that may be ready.
fn first_of(one: Option<ReadyTurn>, other: Option<ReadyTurn>) -> Option<ReadyTurn>
    ensures { result ≡ first_of one other }
{
    match (one, other) {
        (Some(a), Some(b)) if goes_first(b, a) => other,
        (Some(_), _) => one,
        (None, _) => other,
    }
}

/// Whether a turn goes before another: it is ready earlier, or at the same time and begins with a
/// lower step.
fn goes_first(one: ReadyTurn, other: ReadyTurn) -> bool
    ensures { result ≡ goes_first one other }
{
    one.at.is_earlier(other.at) || !other.at.is_earlier(one.at) && one.step < other.step
}
