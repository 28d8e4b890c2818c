//! How many changes are planned, and what became of them.

ghost use Rattle.std.specs.Prelude.{◌≡◌};
ghost use Rattle.stream_watch.specs.Counts.{is_change, no_counts, one_of, planned_of, with_begun, with_done, with_failed, with_planned};

/// Whether the action is `create`, `update` or `delete`.
pub fn is_change(action: &str) -> bool
    ensures { result ≡ is_change action.now }
{
    action == "create" || action == "update" || action == "delete"
}

/// How many creates, updates and deletes there were. Each number stays at most `u64::MAX`.
#[derive(Clone, Copy)]
pub struct Counts {
    /// Those that are planned. A replacement counts as two.
    pub planned: u64,
    /// Those that ended well.
    pub done: u64,
    /// Those that ended with an error.
    pub failed: u64,
    /// Those that began.
    pub begun: u64,
}

impl Counts {
    /// No changes.
    pub fn new() -> Counts
        ensures { result ≡ no_counts }
    {
        Counts {
            planned: 0,
            done: 0,
            failed: 0,
            begun: 0,
        }
    }

    /// The counts after a planned change of this action.
    pub fn with_planned(self, action: &str) -> Counts
        ensures { result ≡ with_planned action.now self }
    {
        Counts {
            planned: self.planned.saturating_add(planned_of(action)),
            ..self
        }
    }

    /// The counts after a step of this action began.
    pub fn with_begun(self, action: &str) -> Counts
        ensures { result ≡ with_begun action.now self }
    {
        Counts {
            begun: self.begun.saturating_add(one_of(action)),
            ..self
        }
    }

    /// The counts after a step of this action ended well.
    pub fn with_done(self, action: &str) -> Counts
        ensures { result ≡ with_done action.now self }
    {
        Counts {
            done: self.done.saturating_add(one_of(action)),
            ..self
        }
    }

    /// The counts after a step of this action ended with an error.
    pub fn with_failed(self, action: &str) -> Counts
        ensures { result ≡ with_failed action.now self }
    {
        Counts {
            failed: self.failed.saturating_add(one_of(action)),
            ..self
        }
    }
}

/// How many changes a planned change of this action counts as.
fn planned_of(action: &str) -> u64
    ensures { result ≡ planned_of action.now }
{
    if action == "replace" {
        2
    } else {
        one_of(action)
    }
}

/// 1 for `create`, `update` or `delete`, else 0.
fn one_of(action: &str) -> u64
    ensures { result ≡ one_of action.now }
{
    if is_change(action) { 1 } else { 0 }
}
