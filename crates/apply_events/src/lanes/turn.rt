//! Turns: the parts of a change that a lane runs as a whole.

ghost use Rattle.std.specs.Prelude.{◌≡◌, ◌<◌, ◌≤◌, ◌++◌, ◌∷◌, ◌==◌, ◌&&◌, [], IfOk, List, OnOk, length, if◌then◌else◌};
ghost use Rattle.apply_hooks.specs.declared.rule.Rule.{Rule};
ghost use Rattle.apply_model.specs.Script.OutcomeMap.{outcome_of};
ghost use Rattle.apply_model.specs.Script.Waits.{names_a_wait};
ghost use Rattle.apply_events.specs.Waits.Turn.{single, turns};

use crate::applied::applied_steps;
use crate::lanes::lane_time::LaneTime;
use apply_model::{Outcome, Plan, Script};
use std::alloc::{AllocError, Global};

/// Steps of a change that one lane runs one after another.
#[derive(Clone, Copy, Debug)]
pub struct Turn {
    /// The number of the change, counted from 0 in the plan.
    pub change: u32,
    /// The number of the first of these steps, counted from 0.
    pub first: u8,
    /// The number of steps.
    pub count: u8,
}

/// A turn that was started, with its lane and its begin.
#[derive(Clone, Copy, Debug)]
pub struct StartedTurn {
    /// The turn.
    pub turn: Turn,
    /// The number of the lane, counted from 0.
    pub lane: u8,
    /// When the turn begins.
    pub begin: LaneTime,
}

impl Turn {
    /// All turns, in the order of the plan. `Err` where memory is refused.
    pub(crate) fn all(alloc: Global, plan: &Plan, script: &Script) -> Result<Vec<Turn>, AllocError>
        ensures { IfOk result (λ all. (hooks : List (List Rule)) → all.items
            ≡ turns (record { plan = plan.now; script = script.now; hooks = hooks })) }
    {
        let mut all = Vec::with_capacity(alloc, plan.len() as usize)?;
        for change in 0..plan.len() {
            let count = applied_steps(plan, script, change).len() as u8;
            let split = count == 2 && second_names_some(script, change);
            push_turns(&mut all, change, count, split)?;
        }
        Ok(all)
    }
}

/// Adds the turns of a change with `count` applied steps: one turn, or two where the change is
/// split.
fn push_turns(all: &mut Vec<Turn>, change: u32, count: u8, split: bool) -> Result<(), AllocError>
    ensures { OnOk result (all.new.items ≡ all.old.items ++ (if split
        then single change 0 ∷ single change 1 ∷ []
        else record { change = change; first = 0; count = count } ∷ [])) }
{
    if split {
        all.push(Turn {
            change,
            first: 0,
            count: 1,
        })?;
        all.push(Turn {
            change,
            first: 1,
            count: 1,
        })?;
    } else {
        all.push(Turn {
            change,
            first: 0,
            count,
        })?;
    }
    Ok(())
}

/// Whether the script names a step that the second step of the change waits for.
fn second_names_some(script: &Script, change: u32) -> bool
    ensures { result ≡ names_a_wait (outcome_of script.now change 1) }
{
    match script.outcome(change, 1) {
        Some(outcome) => outcome.names_a_wait(),
        None => false,
    }
}
