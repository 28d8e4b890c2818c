//! A lane that emits the events of its turns, one turn after another.

ghost use Rattle.std.specs.Prelude.{◌≡◌, ◌==◌, All, if◌then◌else◌};
ghost use Rattle.apply_hooks.specs.Registry.{rules_of};
ghost use Rattle.apply_events.specs.Lanes.Lane.{IsBegun};
ghost use Rattle.apply_events.specs.Lanes.Startable.{IsStartable};

use crate::event::Event;
use crate::lanes::lane_time::LaneTime;
use crate::lanes::turn::StartedTurn;
use crate::lanes::turn_runner::TurnRunner;
use apply_hooks::Registry;
use apply_model::{Plan, Script};

/// A lane and the turn that it runs now.
#[derive(Drop)]
pub struct Lane<'a> {
    number: u8,
    /// The turn that the lane runs now. `None` where the lane is at its end.
    under_way: Option<UnderWay<'a>>,
    /// The search for the lane's next turn begins at this position of the list of started turns.
    place: usize,
}

/// A turn that a lane runs now. It has an event to emit.
#[derive(Drop)]
pub struct UnderWay<'a> {
    begin: LaneTime,
    /// The next event of the turn.
    next_event: Event,
    /// The runner that emits the events after `next_event`.
    later_events: TurnRunner<'a>,
}

/// A time after every event.
const NEVER: LaneTime = LaneTime {
    second: u64::MAX,
    round: 0,
};

impl<'a> Lane<'a> {
    ghost use Rattle.apply_events.specs.Lanes.Lane.{state_of};
    ghost use Rattle.apply_events.specs.Lanes.LaneState.{HasGoneOn, EmitsNext, next_lane_time};

    /// The lane of that number, at its first turn that has events.
    pub(crate) fn start(
        plan: &'a Plan,
        script: &'a Script,
        registry: &'a Registry,
        started: &[StartedTurn],
        number: u8,
    ) -> Lane<'a>
        requires { All (IsStartable (record { plan = plan.now; script = script.now; hooks = rules_of registry.now })) started.now }
        ensures { HasGoneOn (record { plan = plan.now; script = script.now; hooks = rules_of registry.now }) started.now number 0 (state_of result) }
    {
        Lane::from_place(plan, script, registry, started, number, 0)
    }

    /// The lane at its first turn that has events, from that position of the list on.
    fn from_place(
        plan: &'a Plan,
        script: &'a Script,
        registry: &'a Registry,
        started: &[StartedTurn],
        number: u8,
        place: usize,
    ) -> Lane<'a>
        requires { All (IsStartable (record { plan = plan.now; script = script.now; hooks = rules_of registry.now })) started.now }
        ensures { HasGoneOn (record { plan = plan.now; script = script.now; hooks = rules_of registry.now }) started.now number place (state_of result) }
    {
        for next in place..started.len() {
            let turn = started[next];
            if turn.lane == number {
                let under_way = begin(plan, script, registry, turn);
                if under_way.is_some() {
                    return Lane {
                        number,
                        under_way,
                        place: next + 1,
                    };
                }
            }
        }
        Lane {
            number,
            under_way: None,
            place: started.len(),
        }
    }

    /// The time of the lane's next event, or `NEVER` where the lane is at its end.
    pub(crate) fn lane_time(&self) -> LaneTime
        ensures { result ≡ next_lane_time (state_of self.now) }
    {
        match &self.under_way {
            Some(under_way) => lane_time_from(under_way.begin, under_way.next_event.at),
            None => NEVER,
        }
    }

    /// The next event of the lane's turns. `None` where the lane is at its end.
    pub(crate) fn next(
        &mut self,
        plan: &'a Plan,
        script: &'a Script,
        registry: &'a Registry,
        started: &[StartedTurn],
    ) -> Option<Event>
        requires { All (IsStartable (record { plan = plan.now; script = script.now; hooks = rules_of registry.now })) started.now }
        ensures { EmitsNext (record { plan = plan.now; script = script.now; hooks = rules_of registry.now }) started.now
            (state_of self.old) result (state_of self.new) }
    {
        let mut turn = self.under_way.take()?;
        let event = turn.next_event;
        match turn.later_events.next() {
            Some(next) => {
                turn.next_event = next;
                self.under_way = Some(turn);
            }
            None => {
                *self = Lane::from_place(plan, script, registry, started, self.number, self.place);
            }
        }
        Some(event)
    }
}

/// The time of an event in that second, in a turn that begins at `begin`. Within the second of the
/// begin it has the round of the begin.
fn lane_time_from(begin: LaneTime, second: u64) -> LaneTime
    ensures { result ≡ record { second = second; round = if second == begin.second then begin.round else 0 } }
{
    if second == begin.second {
        begin
    } else {
        LaneTime { second, round: 0 }
    }
}

/// The turn with its first event. `None` where the turn has no event.
fn begin<'a>(
    plan: &'a Plan,
    script: &'a Script,
    registry: &'a Registry,
    started: StartedTurn,
) -> Option<UnderWay<'a>>
    requires { IsStartable (record { plan = plan.now; script = script.now; hooks = rules_of registry.now }) started }
    ensures { IsBegun (record { plan = plan.now; script = script.now; hooks = rules_of registry.now }) started result }
{
    let mut later_events = TurnRunner::start(plan, script, registry, started);
    let next_event = later_events.next()?;
    Some(UnderWay {
        begin: started.begin,
        next_event,
        later_events,
    })
}
