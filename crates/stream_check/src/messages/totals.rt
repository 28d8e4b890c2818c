//! Counts creates, updates and deletes.

ghost use Rattle.std.specs.Prelude.{◌≡◌, ◌<◌, ◌^◌};
ghost use Rattle.stream_check.specs.Counted.{begun_counted, counted, planned_counted, with_one};
ghost use Rattle.stream_check.specs.Tally.{same_totals, share_of};

use crate::messages::action::Action;
use crate::messages::intent::Intent;
use crate::messages::timed_stage::TimedStage;

/// How many creates, updates and deletes there are. A replacement counts as a delete and a create.
#[derive(Clone, Copy, Debug, PartialEq, Eq)]
pub struct Totals {
    pub added: u64,
    pub changed: u64,
    pub removed: u64,
}

impl Totals {
    /// No create, update or delete.
    pub const NONE: Totals = Totals {
        added: 0,
        changed: 0,
        removed: 0,
    };
}

/// Counts one more step of the action. Reads and refreshes are not counted.
fn with_one(totals: Totals, action: Action) -> Totals
    requires added { totals.added < 2 ^ 63 }
    requires changed { totals.changed < 2 ^ 63 }
    requires removed { totals.removed < 2 ^ 63 }
    ensures { result ≡ with_one action totals }
{
    let mut new = totals;
    match action {
        Action::Create => new.added += 1,
        Action::Update => new.changed += 1,
        Action::Delete => new.removed += 1,
        Action::Read | Action::Refresh => {}
    }
    new
}

/// The totals of completed steps, after a message about a step.
pub fn counted(totals: Totals, action: Action, stage: TimedStage) -> Totals
    requires added { totals.added < 2 ^ 63 }
    requires changed { totals.changed < 2 ^ 63 }
    requires removed { totals.removed < 2 ^ 63 }
    ensures { result ≡ counted action stage totals }
{
    match stage {
        TimedStage::Complete(_) => with_one(totals, action),
        TimedStage::Start | TimedStage::Progress(_) | TimedStage::Errored(_) => totals,
    }
}

/// The totals of started steps, after a message about a step.
pub fn begun_counted(totals: Totals, action: Action, stage: TimedStage) -> Totals
    requires added { totals.added < 2 ^ 63 }
    requires changed { totals.changed < 2 ^ 63 }
    requires removed { totals.removed < 2 ^ 63 }
    ensures { result ≡ begun_counted action stage totals }
{
    match stage {
        TimedStage::Start => with_one(totals, action),
        TimedStage::Progress(_) | TimedStage::Complete(_) | TimedStage::Errored(_) => totals,
    }
}

/// The totals of planned changes, after one more planned change.
pub fn planned_counted(totals: Totals, intent: Intent) -> Totals
    requires added { totals.added < 2 ^ 63 }
    requires changed { totals.changed < 2 ^ 63 }
    requires removed { totals.removed < 2 ^ 63 }
    ensures { result ≡ planned_counted intent totals }
{
    let mut new = totals;
    match intent {
        Intent::Create => new.added += 1,
        Intent::Update => new.changed += 1,
        Intent::Delete => new.removed += 1,
        Intent::Replace => {
            new.added += 1;
            new.removed += 1;
        }
        Intent::Nothing => {}
    }
    new
}

/// Whether both totals agree.
pub fn agree(stated: Totals, actual: Totals) -> bool
    ensures { result ≡ same_totals stated actual }
{
    stated.added == actual.added
        && stated.changed == actual.changed
        && stated.removed == actual.removed
}

/// The count of the action. Reads and refreshes have none.
pub fn share_of(action: Action, totals: Totals) -> Option<u64>
    ensures { result ≡ share_of action totals }
{
    match action {
        Action::Create => Some(totals.added),
        Action::Update => Some(totals.changed),
        Action::Delete => Some(totals.removed),
        Action::Read | Action::Refresh => None,
    }
}
