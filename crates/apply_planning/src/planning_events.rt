//! The events of a planning in the order of time, one by one.
//!
//! Every `Err` means that memory was refused.

ghost use Rattle.std.specs.Prelude.{◌≡◌, ◌<◌, ◌≤◌, All, IfOk, length, map, reverse};
ghost use Rattle.apply_events.specs.Lanes.LaneState.{HaveGoneOn, left};
ghost use Rattle.apply_events.specs.Lanes.Props.{AllTimed-prop, AreSteady-prop};
ghost use Rattle.apply_events.specs.Lanes.Steady.{AreSteady, IsTimedTurn, when};
ghost use Rattle.apply_events.specs.Waits.Merging.{merged};
ghost use Rattle.apply_planning.specs.Begun.{AllBegun-prop, AllInTime-prop, HasBegun, IsInTime};
ghost use Rattle.apply_planning.specs.Lane.{state_of};
ghost use Rattle.apply_planning.specs.PlanningWork.{planning_work};

use crate::lane::Lane;
use crate::told::Told;
use apply_events::{Event, StartedTurn};
use std::alloc::{AllocError, Global};

/// The events of a planning.
#[derive(Drop)]
pub struct PlanningEvents<'a> {
    told: &'a [Told],
    /// The objects that the lanes begin, in the order in which they begin.
    started: &'a [StartedTurn],
    lanes: Vec<Lane>,
    ghost some: { 0 < length lanes.items },
    ghost begun: { All (HasBegun told.now) started.now } by { AllBegun-prop told.now started.now },
    ghost timed: { All (IsTimedTurn (planning_work told.now) (when started.now)) started.now } by { AllTimed-prop (planning_work told.now) (when started.now) started.now },
    ghost steady: { AreSteady (planning_work told.now) started.now (map state_of lanes.items) } by { AreSteady-prop (planning_work told.now) started.now (map state_of lanes.items) },
    ghost early: { All IsInTime (merged (when started.now) (length (map state_of lanes.items)) (left (planning_work told.now) started.now (map state_of lanes.items))) } by { AllInTime-prop (merged (when started.now) (length (map state_of lanes.items)) (left (planning_work told.now) started.now (map state_of lanes.items))) },
}

impl<'a> PlanningEvents<'a> {
    ghost use Rattle.std.specs.Prelude.{IfSome};
    ghost use Rattle.apply_events.specs.Course.{GivesNext};
    ghost use Rattle.apply_events.specs.Waits.Merging.{time_line};
    ghost use Rattle.apply_events.specs.Waits.Schedule.{first_earliest, schedule};
    ghost use Rattle.apply_planning.specs.PlanningWork.{max_seconds_in_all, seconds_in_all};
    ghost use Rattle.apply_planning.specs.ToCome.{lane_times_of, to_come, told_of};

    /// The events of these objects, which so many lanes begin as `started` lists them.
    pub(crate) fn new(
        alloc: Global,
        told: &'a [Told],
        started: &'a [StartedTurn],
        count: u8,
    ) -> Result<PlanningEvents<'a>, AllocError>
        requires some { 0 < count }
        requires short { seconds_in_all told.now ≤ max_seconds_in_all }
        requires started { reverse started.now ≡ schedule (planning_work told.now) count }
        ensures events { IfOk result (λ events. to_come events ≡ time_line (planning_work told.now) count) }
        ensures told { IfOk result (λ events. told_of events ≡ told.now) }
    {
        let lanes = start_lanes(alloc, told, started, count)?;
        Ok(PlanningEvents {
            told,
            started,
            lanes,
        })
    }

    /// The next event. Its change is the number of the object, its step is 0, and its worker is the
    /// lane. The note of a failure comes up with an event `ErrorNote` or `WarnNote`. `None` where no
    /// event is left, now and in later calls. No memory is allocated.
    pub fn next(&mut self) -> Option<Event>
        ensures next { GivesNext (to_come self.old) result (to_come self.new) }
        ensures in_time { IfSome result IsInTime }
        ensures known { IfSome result (λ event. event.change < length (told_of self.old)) }
        ensures told { told_of self.new ≡ told_of self.old }
    {
        let first = self.first();
        self.lanes[first].next(self.told, self.started)
    }

    /// The lane with the earliest event. Of several lanes it is the lowest.
    fn first(&self) -> usize
        ensures { result ≡ first_earliest (lane_times_of self.now) }
    {
        let mut first = 0;
        let mut least = self.lanes[0].lane_time();
        for lane in 1..self.lanes.len() {
            let lane_time = self.lanes[lane].lane_time();
            if lane_time.is_earlier(least) {
                first = lane;
                least = lane_time;
            }
        }
        first
    }
}

/// So many lanes, each at its first object.
fn start_lanes(
    alloc: Global,
    told: &[Told],
    started: &[StartedTurn],
    count: u8,
) -> Result<Vec<Lane>, AllocError>
    requires { All (HasBegun told.now) started.now }
    ensures { IfOk result (λ lanes. HaveGoneOn (planning_work told.now) started.now count (map state_of lanes.items)) }
{
    let mut lanes = Vec::with_capacity(alloc, count as usize)?;
    for lane in 0..count {
        lanes.push(Lane::from_place(told, started, lane, 0))?;
    }
    Ok(lanes)
}
