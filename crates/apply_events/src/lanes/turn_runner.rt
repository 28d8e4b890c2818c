//! A turn that is being applied.

ghost use Rattle.std.specs.Prelude.{◌≡◌, ◌+◌, ◌-◌, ◌*◌, ◌<◌, ◌≤◌, drop, length, take, true};
ghost use Rattle.std.specs.List.{Contains, list_all};
ghost use Rattle.apply_hooks.specs.Registry.{rules_of};
ghost use Rattle.apply_model.specs.Script.Limits.{max_seconds};
ghost use Rattle.apply_events.specs.ChangeEvents.{first_time};
ghost use Rattle.apply_events.specs.Fits.{IsApplied, latest_second};
ghost use Rattle.apply_events.specs.Runner as runner;
ghost use Rattle.apply_events.specs.Stages.{events_from};
ghost use Rattle.apply_events.specs.Step.{kinds_of, steps_of};
ghost use Rattle.apply_events.specs.StepEvents.{goes_on};
ghost use Rattle.apply_events.specs.BeforeStep.{stops_at};

use crate::event::Event;
use crate::lanes::turn::StartedTurn;
use crate::runner::Runner;
use apply_hooks::Registry;
use apply_model::{Plan, Script};

/// A turn that is being applied. It emits the events of its steps one by one.
#[derive(Drop)]
pub struct TurnRunner<'a> {
    /// The runner of the whole change. It would also emit the events of steps after the turn.
    change_runner: Runner<'a>,
    /// The number of the first step after the turn.
    end: u8,
    ghost stops: { stops_at end (runner.to_come change_runner) ≡ true },
}

impl<'a> TurnRunner<'a> {
    ghost use Rattle.apply_events.specs.Course.{GivesNext};
    ghost use Rattle.apply_events.specs.BeforeStep.{begins_with};
    ghost use Rattle.apply_events.specs.TurnRunner.{to_come};
    ghost use Rattle.apply_events.specs.Waits.TimeLine.{turn_events};
    ghost use Rattle.apply_events.specs.Waits.Turn.{turns};

    /// The turn from its begin on. If the turn begins with the second step of its change, the first
    /// step has gone on.
    pub(crate) fn start(
        plan: &'a Plan,
        script: &'a Script,
        registry: &'a Registry,
        started: StartedTurn,
    ) -> TurnRunner<'a>
        requires known { Contains (turns (record { plan = plan.now; script = script.now; hooks = rules_of registry.now })) started.turn }
        requires change { started.turn.change < length plan.now.changes }
        requires few { length (kinds_of plan.now started.turn.change) ≤ 2 }
        requires place { (started.turn.first ≤ 1) × (started.turn.first + started.turn.count ≤ 2) }
        requires in_time { started.begin.second + max_seconds * (2 - started.turn.first) ≤ latest_second }
        requires has_step { 0 < started.turn.first → IsApplied plan.now script.now started.turn.change 0 }
        requires went_on { 0 < started.turn.first → list_all goes_on
            (take 1 (steps_of (record { plan = plan.now; script = script.now; hooks = rules_of registry.now }) started.turn.change)) ≡ true }
        requires late { 0 < started.turn.first
            → first_time (record { plan = plan.now; script = script.now; hooks = rules_of registry.now }) started.turn.change ≤ started.begin.second }
        ensures { to_come result ≡ turn_events (record { plan = plan.now; script = script.now; hooks = rules_of registry.now }) started }
    {
        let change_runner = runner_of(plan, script, registry, started);
        TurnRunner {
            change_runner,
            end: started.turn.first + started.turn.count,
        }
    }

    /// The next event. `None` where no event is left, now and in later calls. Hooks are not asked
    /// about steps after the turn.
    pub(crate) fn next(&mut self) -> Option<Event>
        ensures { GivesNext (to_come self.old) result (to_come self.new) }
    {
        if self.is_over() {
            return None;
        }
        self.change_runner.next()
    }

    /// Whether the next event would begin a step after the turn.
    fn is_over(&self) -> bool
        ensures { result ≡ begins_with self.now.end (runner.to_come self.now.change_runner) }
    {
        match self.change_runner.begins() {
            Some(step) => step == self.end,
            None => false,
        }
    }
}

/// The runner of the change, from the first step of the turn on.
fn runner_of<'a>(
    plan: &'a Plan,
    script: &'a Script,
    registry: &'a Registry,
    started: StartedTurn,
) -> Runner<'a>
    requires change { started.turn.change < length plan.now.changes }
    requires place { started.turn.first ≤ 1 }
    requires in_time { started.begin.second + max_seconds * (2 - started.turn.first) ≤ latest_second }
    requires has_step { 0 < started.turn.first → IsApplied plan.now script.now started.turn.change 0 }
    requires went_on { 0 < started.turn.first → list_all goes_on
        (take 1 (steps_of (record { plan = plan.now; script = script.now; hooks = rules_of registry.now }) started.turn.change)) ≡ true }
    requires late { 0 < started.turn.first
        → first_time (record { plan = plan.now; script = script.now; hooks = rules_of registry.now }) started.turn.change ≤ started.begin.second }
    ensures { runner.to_come result ≡ events_from started.lane
        (drop started.turn.first (steps_of (record { plan = plan.now; script = script.now; hooks = rules_of registry.now }) started.turn.change)) started.begin.second }
{
    let change = started.turn.change;
    let at = started.begin.second;
    if started.turn.first == 0 {
        Runner::start(plan, script, registry, started.lane, change, at)
    } else {
        Runner::resume(plan, script, registry, started.lane, change, at)
    }
}
