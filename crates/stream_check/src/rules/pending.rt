//! The open steps of one action at one address.

ghost use Rattle.std.specs.Prelude.{◌≡◌};
ghost use Rattle.stream_check.specs.Course.{after, begun, ended, may_overlap, progressed};

use crate::messages::action::Action;
use crate::messages::timed_stage::TimedStage;
use crate::rules::fault::Fault;

/// One open step, or several that overlap.
#[derive(Clone, Copy)]
pub enum Pending {
    /// A step that started on `start_line`. Line `since` stated its latest seconds; the start
    /// states 0.
    One {
        start_line: u64,
        last_seconds: u64,
        since: u64,
    },
    /// How many of several overlapping steps are open. The first of them started on `start_line`.
    Several {
        start_line: u64,
        count: u64,
    },
}

impl Pending {
    ghost use Rattle.stream_check.specs.Course.{start_line_of};

    /// The line on which the step, or the first of several, started.
    pub fn start_line(self) -> u64
        ensures { result ≡ start_line_of self }
    {
        match self {
            Pending::One { start_line, .. } | Pending::Several { start_line, .. } => start_line,
        }
    }
}

/// How many steps of one action may overlap at one address.
const MAX_OVERLAP: u64 = 10_000;

/// Whether two steps of the action may overlap at one address.
fn may_overlap(action: Action) -> bool
    ensures { result ≡ may_overlap action }
{
    match action {
        Action::Delete | Action::Read | Action::Refresh => true,
        Action::Create | Action::Update => false,
    }
}

/// Returns the open steps after a start on that line. `Err` with the fault of the message.
fn begun(action: Action, line: u64, pending: Option<Pending>) -> Result<Option<Pending>, Fault>
    ensures { result ≡ begun action line pending }
{
    match pending {
        None => Ok(Some(Pending::One {
            start_line: line,
            last_seconds: 0,
            since: line,
        })),
        Some(Pending::One { start_line, .. }) => if may_overlap(action) {
            Ok(Some(Pending::Several {
                start_line,
                count: 2,
            }))
        } else {
            Err(Fault::StartsAgain(start_line))
        },
        Some(Pending::Several { start_line, count }) => if count < MAX_OVERLAP {
            Ok(Some(Pending::Several {
                start_line,
                count: count + 1,
            }))
        } else {
            Err(Fault::TooMany(start_line))
        },
    }
}

/// Returns the open steps after a progress on that line. `Err` with the fault of the message.
fn progressed(seconds: u64, line: u64, pending: Option<Pending>) -> Result<Option<Pending>, Fault>
    ensures { result ≡ progressed seconds line pending }
{
    match pending {
        None => Err(Fault::NotOpen),
        Some(
            Pending::One {
                start_line,
                last_seconds,
                since,
            },
        ) => if last_seconds < seconds {
            Ok(Some(Pending::One {
                start_line,
                last_seconds: seconds,
                since: line,
            }))
        } else {
            Err(Fault::NotLater(since))
        },
        Some(Pending::Several { start_line, count }) => Ok(Some(Pending::Several {
            start_line,
            count,
        })),
    }
}

/// Returns the open steps after an end. `Err` with the fault of the message.
fn ended(seconds: u64, pending: Option<Pending>) -> Result<Option<Pending>, Fault>
    ensures { result ≡ ended seconds pending }
{
    match pending {
        None => Err(Fault::NotOpen),
        Some(
            Pending::One {
                last_seconds,
                since,
                ..
            },
        ) => if seconds < last_seconds {
            Err(Fault::NotLater(since))
        } else {
            Ok(None)
        },
        Some(Pending::Several { start_line, count }) => if 1 < count {
            Ok(Some(Pending::Several {
                start_line,
                count: count - 1,
            }))
        } else {
            Ok(None)
        },
    }
}

/// Returns the open steps after a message about the step on that line. `Err` with the fault of the
/// message.
pub fn after(
    action: Action,
    stage: TimedStage,
    line: u64,
    pending: Option<Pending>,
) -> Result<Option<Pending>, Fault>
    ensures { result ≡ after action stage line pending }
{
    match stage {
        TimedStage::Start => begun(action, line, pending),
        TimedStage::Progress(seconds) => progressed(seconds, line, pending),
        TimedStage::Complete(seconds) => ended(seconds, pending),
        TimedStage::Errored(seconds) => ended(seconds, pending),
    }
}
