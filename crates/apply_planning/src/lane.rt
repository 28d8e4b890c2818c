//! A lane that emits the events of its objects, one object after another.

ghost use Rattle.std.specs.Prelude.{◌≡◌, ◌==◌, All, if◌then◌else◌};
ghost use Rattle.apply_planning.specs.Begun.{HasBegun};
ghost use Rattle.apply_planning.specs.PlanningWork.{planning_work};

use crate::told::Told;
use crate::told_events::ToldEvents;
use apply_events::{Event, LaneTime, StartedTurn};

/// A lane and the object that it runs now.
#[derive(Drop)]
pub struct Lane {
    number: u8,
    /// The object that the lane runs now. `None` where the lane is at its end.
    under_way: Option<UnderWay>,
    /// The search for the lane's next object begins at this position of the list of begins.
    place: usize,
}

/// An object that a lane runs now. It has an event to emit.
#[derive(Drop)]
pub struct UnderWay {
    begin: LaneTime,
    /// The next event of the object.
    next_event: Event,
    /// The events after `next_event`.
    later_events: ToldEvents,
}

/// A time after every event.
const NEVER: LaneTime = LaneTime {
    second: u64::MAX,
    round: 0,
};

impl Lane {
    ghost use Rattle.apply_events.specs.Lanes.LaneState.{HasGoneOn, EmitsNext, next_lane_time};
    ghost use Rattle.apply_planning.specs.Lane.{state_of};

    /// The lane of that number at its first object, from that position of the list on.
    pub(crate) fn from_place(
        told: &[Told],
        started: &[StartedTurn],
        number: u8,
        place: usize,
    ) -> Lane
        requires { All (HasBegun told.now) started.now }
        ensures { HasGoneOn (planning_work told.now) started.now number place (state_of result) }
    {
        for next in place..started.len() {
            let turn = started[next];
            if turn.lane == number {
                let mut later_events = ToldEvents::start(&told[turn.turn.change as usize], turn);
                if let Some(next_event) = later_events.next() {
                    return Lane {
                        number,
                        under_way: Some(UnderWay {
                            begin: turn.begin,
                            next_event,
                            later_events,
                        }),
                        place: next + 1,
                    };
                }
            }
        }
        Lane {
            number,
            under_way: None,
            place: started.len(),
        }
    }

    /// The time of the lane's next event, or `NEVER` where the lane is at its end.
    pub(crate) fn lane_time(&self) -> LaneTime
        ensures { result ≡ next_lane_time (state_of self.now) }
    {
        match &self.under_way {
            Some(under_way) => lane_time_from(under_way.begin, under_way.next_event.at),
            None => NEVER,
        }
    }

    /// The next event of the lane's objects. `None` where the lane is at its end.
    pub(crate) fn next(&mut self, told: &[Told], started: &[StartedTurn]) -> Option<Event>
        requires { All (HasBegun told.now) started.now }
        ensures { EmitsNext (planning_work told.now) started.now (state_of self.old) result (state_of self.new) }
    {
        let mut object = self.under_way.take()?;
        let event = object.next_event;
        match object.later_events.next() {
            Some(next) => {
                object.next_event = next;
                self.under_way = Some(object);
            }
            None => {
                *self = Lane::from_place(told, started, self.number, self.place);
            }
        }
        Some(event)
    }
}

/// The time of an event in that second, of an object that begins at `begin`. Within the second of
/// the begin it has the round of the begin.
fn lane_time_from(begin: LaneTime, second: u64) -> LaneTime
    ensures { result ≡ record { second = second; round = if second == begin.second then begin.round else 0 } }
{
    if second == begin.second {
        begin
    } else {
        LaneTime { second, round: 0 }
    }
}
