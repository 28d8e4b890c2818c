//! The events of a told object, one by one.

ghost use Rattle.std.specs.Prelude.{◌≡◌, ◌+◌, ◌≤◌, ◌∷◌};
ghost use Rattle.apply_planning.specs.declared.told_events.Stage.TheVariants.{Running};

use crate::told::Told;
use apply_events::{Event, StartedTurn, What};

/// How far an object is.
#[derive(Clone, Copy)]
pub enum Stage {
    /// It has not started.
    Before,
    /// It runs, and its progress up to so many seconds after its start was emitted.
    Running(u32),
    /// It has failed, and its error is left.
    Noting,
    /// No event is left.
    Over,
}

/// An object that begins in a lane, and the events that it still has to emit.
#[derive(Clone, Copy)]
pub struct ToldEvents {
    /// The lane, the number of the object, and its begin.
    turn: StartedTurn,
    /// How long it takes, in seconds.
    seconds: u32,
    /// Whether it fails with an error.
    fails: bool,
    /// Whether it fails and only warns.
    warns: bool,
    stage: Stage,
    ghost in_time: { turn.begin.second + seconds ≤ 864000000 },
}

impl ToldEvents {
    ghost use Rattle.apply_events.specs.Course.{GivesNext};
    ghost use Rattle.apply_planning.specs.ToldEvents.{events_of, left, told_event};

    /// The object at its begin.
    pub(crate) fn start(one: &Told, turn: StartedTurn) -> ToldEvents
        requires { turn.begin.second + one.now.seconds ≤ 864000000 }
        ensures { left result ≡ events_of one.now turn }
    {
        ToldEvents {
            turn,
            seconds: one.seconds,
            fails: one.fails(),
            warns: one.failure.is_some(),
            stage: Stage::Before,
        }
    }

    /// The next event. `None` where no event is left.
    pub(crate) fn next(&mut self) -> Option<Event>
        ensures { GivesNext (left self.old) result (left self.new) }
    {
        match self.stage {
            Stage::Before => {
                self.stage = Stage::Running(0);
                Some(self.event(0, What::Start))
            }
            Stage::Running(after) => Some(self.run(after)),
            Stage::Noting => {
                self.stage = Stage::Over;
                Some(self.event(self.seconds, What::ErrorNote))
            }
            Stage::Over => None,
        }
    }

    /// The next event while the object runs: progress, or its end.
    fn run(&mut self, after: u32) -> Event
        requires { self.old.stage ≡ Running after }
        ensures { left self.old ≡ result ∷ left self.new }
    {
        let seconds = self.seconds;
        if after < seconds {
            let time = (after / 10 + 1) * 10;
            if time < seconds {
                self.stage = Stage::Running(time);
                return self.event(time, What::Progress(time));
            }
        }
        if self.fails {
            self.stage = Stage::Noting;
            return self.event(seconds, What::Errored(seconds));
        }
        self.stage = Stage::Over;
        if self.warns {
            self.event(seconds, What::WarnNote)
        } else {
            self.event(seconds, What::Complete(seconds))
        }
    }

    /// An event so many seconds after the begin.
    fn event(&self, after: u32, what: What) -> Event
        requires { after ≤ self.now.seconds }
        ensures { result ≡ told_event self.now.turn (self.now.turn.begin.second + after) what }
    {
        Event {
            worker: self.turn.lane,
            change: self.turn.turn.change,
            step: 0,
            what,
            at: self.turn.begin.second + after as u64,
        }
    }
}
