//! The events of a plan that is applied in lanes, one by one.
//!
//! Every `Err` means that memory was refused.

ghost use Rattle.std.specs.Prelude.{◌≡◌, ℕ, ◌+◌, ◌<◌, ◌≤◌, All, IfOk, length, map, sum_by};
ghost use Rattle.apply_hooks.specs.Registry.{rules_of};
ghost use Rattle.apply_model.specs.Plan.SavedPlan.{max_changes};
ghost use Rattle.apply_events.specs.Lanes.Lane.{state_of};
ghost use Rattle.apply_events.specs.Lanes.LaneState.{HaveGoneOn, count_left};
ghost use Rattle.apply_events.specs.Lanes.Props.{AllStartable-prop, AllTimed-prop, AreSteady-prop};
ghost use Rattle.apply_events.specs.Lanes.Startable.{AreWithinLimits, IsStartable};
ghost use Rattle.apply_events.specs.Lanes.Steady.{AreSteady, IsTimedTurn, when};

pub mod free;
pub mod lane;
pub mod lane_time;
pub mod queue;
pub mod schedule;
pub mod step_course;
pub mod turn;
pub mod turn_runner;

use crate::event::Event;
use crate::lanes::lane::Lane;
use crate::lanes::schedule::schedule;
use crate::lanes::turn::StartedTurn;
use apply_hooks::Registry;
use apply_model::{Plan, Script};
use std::alloc::{AllocError, Global};

/// The most lanes of a run.
pub const MAX_LANES: u8 = 64;

/// A plan that is applied in lanes.
#[derive(Drop)]
pub struct Lanes<'a> {
    plan: &'a Plan,
    script: &'a Script,
    registry: &'a Registry,
    /// The turns that the lanes start, in the order in which they start.
    started: Vec<StartedTurn>,
    lanes: Vec<Lane<'a>>,
    /// How many events were emitted.
    emitted: u32,
    ghost few: { length lanes.items ≤ 64 },
    ghost some: { 0 < length lanes.items },
    ghost startable: { All (IsStartable (record { plan = plan.now; script = script.now; hooks = rules_of registry.now })) started.items } by { AllStartable-prop (record { plan = plan.now; script = script.now; hooks = rules_of registry.now }) started.items },
    ghost timed: { All (IsTimedTurn (record { plan = plan.now; script = script.now; hooks = rules_of registry.now }) (when started.items)) started.items } by { AllTimed-prop (record { plan = plan.now; script = script.now; hooks = rules_of registry.now }) (when started.items) started.items },
    ghost steady: { AreSteady (record { plan = plan.now; script = script.now; hooks = rules_of registry.now }) started.items (map state_of lanes.items) } by { AreSteady-prop (record { plan = plan.now; script = script.now; hooks = rules_of registry.now }) started.items (map state_of lanes.items) },
    ghost counted: { emitted + sum_by (count_left (record { plan = plan.now; script = script.now; hooks = rules_of registry.now }) started.items) (map state_of lanes.items) ≤ 189180000 },
}

impl<'a> Lanes<'a> {
    ghost use Rattle.std.specs.Prelude.{IfSome};
    ghost use Rattle.apply_events.specs.Course.{GivesNext};
    ghost use Rattle.apply_events.specs.Fits.{IsOfPlan};
    ghost use Rattle.apply_events.specs.Lanes.ToCome.{max_events, lane_times_of, to_come, emitted_count, work_of};
    ghost use Rattle.apply_events.specs.Waits.Merging.{time_line};
    ghost use Rattle.apply_events.specs.Waits.Schedule.{first_earliest};

    /// Starts a plan in so many lanes. This call fixes which steps begin, and when. So it asks the
    /// hooks whether they halt each of those steps, before its start or after its completion. Calls
    /// of `next` ask them once more.
    ///
    /// `Err` where memory is refused.
    pub fn start(
        alloc: Global,
        plan: &'a Plan,
        script: &'a Script,
        registry: &'a Registry,
        count: u8,
    ) -> Result<Lanes<'a>, AllocError>
        requires some { 0 < count }
        requires few { count ≤ 64 }
        ensures events { IfOk result (λ lanes. to_come lanes
            ≡ time_line (record { plan = plan.now; script = script.now; hooks = rules_of registry.now }) count) }
        ensures work { IfOk result (λ lanes. work_of lanes
            ≡ record { plan = plan.now; script = script.now; hooks = rules_of registry.now }) }
        ensures none_emitted { IfOk result (λ lanes. emitted_count lanes ≡ 0) }
    {
        are_within_limits(plan, script);
        let started = schedule(alloc, plan, script, registry, count)?;
        let lanes = start_lanes(alloc, plan, script, registry, &started, count)?;
        Ok(Lanes {
            plan,
            script,
            registry,
            started,
            lanes,
            emitted: 0,
        })
    }

    /// The next event. `None` where no event is left, now and in later calls. No memory is
    /// allocated.
    pub fn next(&mut self) -> Option<Event>
        ensures next { GivesNext (to_come self.old) result (to_come self.new) }
        ensures of_plan { IfSome result (λ event. IsOfPlan (work_of self.old).plan event) }
        ensures work { work_of self.new ≡ work_of self.old }
        ensures one_more { IfSome result (λ _. emitted_count self.new ≡ emitted_count self.old + 1) }
        ensures few { emitted_count self.new ≤ max_events }
    {
        let first = self.first();
        let next = self.lanes[first].next(self.plan, self.script, self.registry, &self.started);
        let Some(event) = next else {
            return None;
        };
        self.emitted += 1;
        Some(event)
    }

    /// The lane with the earliest event. Of several lanes it is the lowest.
    fn first(&self) -> usize
        ensures { result ≡ first_earliest (lane_times_of self.now) }
    {
        let mut first = 0;
        let mut least = self.lanes[0].lane_time();
        for lane in 1..self.lanes.len() {
            let lane_time = self.lanes[lane].lane_time();
            if lane_time.is_earlier(least) {
                first = lane;
                least = lane_time;
            }
        }
        first
    }
}

/// So many lanes, each at its first turn that has events.
fn start_lanes<'a>(
    alloc: Global,
    plan: &'a Plan,
    script: &'a Script,
    registry: &'a Registry,
    started: &[StartedTurn],
    count: u8,
) -> Result<Vec<Lane<'a>>, AllocError>
    requires { All (IsStartable (record { plan = plan.now; script = script.now; hooks = rules_of registry.now })) started.now }
    ensures { IfOk result (λ lanes. HaveGoneOn (record { plan = plan.now; script = script.now; hooks = rules_of registry.now }) started.now count (map state_of lanes.items)) }
{
    let mut lanes = Vec::with_capacity(alloc, count as usize)?;
    for lane in 0..count {
        lanes.push(Lane::start(plan, script, registry, started, lane))?;
    }
    Ok(lanes)
}

/// The changes of the plan are within the limits: at most two steps, each of at most a day, with
/// few provisioners.
fn are_within_limits(plan: &Plan, script: &Script)
    ensures steps { (c : ℕ) → c < length plan.now.changes → AreWithinLimits plan.now script.now c }
    ensures changes { length plan.now.changes ≤ max_changes }
{
    for change in 0..plan.len() {
        let _steps = plan.change(change).steps();
        let _first = script.outcome(change, 0);
        let _second = script.outcome(change, 1);
    }
}
