//! The schedule: which turn starts when, and in which lane.
//!
//! Every `Err` means that memory was refused.

ghost use Rattle.std.specs.Prelude.{◌≡◌, ◌+◌, ◌*◌, ◌<◌, ◌≤◌, ◌^◌, ℕ, IfOk, List, None, OnOk, Option, length, reverse};
ghost use Rattle.apply_hooks.specs.Registry.{rules_of};
ghost use Rattle.apply_model.specs.Script.Limits.{max_seconds};
ghost use Rattle.apply_events.specs.Step.{kinds_applied};
ghost use Rattle.apply_events.specs.Waits.Done.{done_in, end_of_turn, first_some};
ghost use Rattle.apply_events.specs.Waits.Queue.{IsQueue};
ghost use Rattle.apply_events.specs.Waits.Schedule.{schedule};
ghost use Rattle.apply_model.specs.declared.script.wait.Wait.{Wait};
ghost use Rattle.apply_events.specs.declared.lanes.lane_time.LaneTime.{LaneTime};

use crate::applied::applied_steps;
use crate::lanes::free::first_earliest;
use crate::lanes::lane_time::LaneTime;
use crate::lanes::queue::Queue;
use crate::lanes::step_course::StepCourse;
use crate::lanes::turn::{StartedTurn, Turn};
use apply_hooks::Registry;
use apply_model::{Plan, Script, Wait};
use std::alloc::{AllocError, Global};

/// The turns that so many lanes start, in the order in which they start.
pub(crate) fn schedule(
    alloc: Global,
    plan: &Plan,
    script: &Script,
    registry: &Registry,
    lanes: u8,
) -> Result<Vec<StartedTurn>, AllocError>
    requires { 0 < lanes }
    ensures { IfOk result (λ started. reverse started.items ≡ schedule (record { plan = plan.now; script = script.now; hooks = rules_of registry.now }) lanes) }
{
    let turns = Turn::all(alloc, plan, script)?;
    let mut queue = Queue::new(alloc, plan.len(), script, &turns)?;
    let mut free = vec![in alloc; LaneTime::first(); lanes as usize]?;
    let mut all = Vec::with_capacity(alloc, turns.len())?;
    while all.len() < turns.len() {
        let Some(ready) = queue.take() else {
            return Ok(all);
        };
        let lane = first_earliest(&free);
        let started = StartedTurn {
            turn: turns[ready.number as usize],
            lane: lane as u8,
            begin: ready.at.later_of(free[lane]),
        };
        all.push(started)?;
        free[lane] = run_steps(plan, script, registry, started, &mut queue)?;
    }
    Ok(all)
}

/// Runs the steps of a turn: it records in the queue which steps are done and when. Returns the
/// time at which the turn ends.
fn run_steps(
    plan: &Plan,
    script: &Script,
    registry: &Registry,
    started: StartedTurn,
    queue: &mut Queue,
) -> Result<LaneTime, AllocError>
    requires change { started.turn.change < length plan.now.changes }
    requires steps { started.turn.first + started.turn.count ≤ length (kinds_applied plan.now script.now started.turn.change) }
    requires second { started.begin.second + 2 * max_seconds < 2 ^ 64 }
    requires round { started.begin.round + 1 < 2 ^ 32 }
    requires known { (names : List (List Wait)) × (done : Wait → Option LaneTime) × (numbers : List ℕ)
        × IsQueue (2 * length plan.now.changes) names done numbers queue.old
        × ((step : ℕ) → started.turn.first ≤ step → step < started.turn.first + started.turn.count → done (record { change = started.turn.change; step = step }) ≡ None) }
    ensures short { IfOk result (λ end. end.second ≤ started.begin.second + 2 * max_seconds) }
    ensures end { IfOk result (λ end. end ≡ end_of_turn (record { plan = plan.now; script = script.now; hooks = rules_of registry.now }) started) }
    ensures queue { OnOk result ((names : List (List Wait)) (done : Wait → Option LaneTime) (numbers : List ℕ)
        → IsQueue (2 * length plan.now.changes) names done numbers queue.old
        → ((step : ℕ) → started.turn.first ≤ step → step < started.turn.first + started.turn.count → done (record { change = started.turn.change; step = step }) ≡ None)
        → IsQueue (2 * length plan.now.changes) names
        (λ name. first_some (done_in (record { plan = plan.now; script = script.now; hooks = rules_of registry.now }) started name) (done name))
        numbers queue.new) }
{
    let turn = started.turn;
    let kinds = applied_steps(plan, script, turn.change);
    let mut at = started.begin;
    for step in turn.first..turn.first + turn.count {
        let course = StepCourse::of(
            plan,
            script,
            registry,
            turn.change,
            step,
            kinds[step as usize],
        );
        at = at.later_by(course.seconds);
        if !course.goes_on {
            return Ok(at);
        }
        let passed = Wait {
            change: turn.change,
            step,
        };
        queue.complete(passed, at)?;
    }
    Ok(at)
}
