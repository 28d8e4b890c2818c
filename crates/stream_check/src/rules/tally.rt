//! Counts the lines of a stream.

ghost use Rattle.std.specs.Prelude.{◌≡◌, ◌<◌, ◌^◌, ◌&&◌, ◌||◌, is_some, not, []};
ghost use Rattle.stream_check.specs.Counted.{failures_counted, is_used_up};

use crate::messages::action::Action;
use crate::messages::intent::Intent;
use crate::messages::timed_stage::TimedStage;
use crate::messages::totals::{Totals, agree, begun_counted, counted, planned_counted, share_of};
use crate::rules::address_state::may_fail;
use crate::rules::fault::Fault;
use crate::rules::mode::Mode;

/// What is known of all lines so far, apart from the state of addresses.
#[derive(Clone, Copy)]
pub struct Tally {
    /// How many lines were read.
    pub lines: u64,
    /// Completed, started and planned creates, updates and deletes.
    pub completed: Totals,
    pub begun: Totals,
    pub planned: Totals,
    /// Whether a planned change was reported.
    pub has_plan: bool,
    /// The lines of the version, of the summary of a plan, and of the summary of an apply.
    pub version: Option<u64>,
    pub plan_summary: Option<u64>,
    pub summary: Option<u64>,
    /// Whether the outputs of a summary may follow.
    pub awaits_outputs: bool,
    /// Whether an error was reported.
    pub has_failed: bool,
    /// How many errors without an address were reported.
    pub errors_without_address: u64,
    /// How many failures no error with their address explains.
    pub failures: u64,
    /// How many lines of a log hold no message.
    pub foreign: u64,
}

impl Tally {
    ghost use Rattle.stream_check.specs.Small.{IsSmall};
    ghost use Rattle.stream_check.specs.Tallied.{awaits_create, has_nothing_begun, is_beyond, no_end_fault, tally_of, with_error, with_error_at, with_foreign, with_line, with_outputs, with_plan_summary, with_planned, with_step, with_summary, with_version};

    /// The tally of no line.
    pub fn new() -> Tally
        ensures value { result ≡ tally_of [] }
        ensures small { IsSmall result }
    {
        Tally {
            lines: 0,
            completed: Totals::NONE,
            begun: Totals::NONE,
            planned: Totals::NONE,
            has_plan: false,
            version: None,
            plan_summary: None,
            summary: None,
            awaits_outputs: false,
            has_failed: false,
            errors_without_address: 0,
            failures: 0,
            foreign: 0,
        }
    }

    /// Counts a line that changes nothing else.
    pub fn with_line(self) -> Tally
        requires few { self.lines < 2 ^ 32 }
        requires small { IsSmall self }
        ensures value { result ≡ with_line self }
        ensures small { IsSmall result }
    {
        let mut new = self;
        new.lines += 1;
        new
    }

    /// Counts the version.
    pub fn with_version(self) -> Tally
        requires few { self.lines < 2 ^ 32 }
        requires small { IsSmall self }
        ensures value { result ≡ with_version self }
        ensures small { IsSmall result }
    {
        let mut new = self;
        new.lines += 1;
        new.version = Some(new.lines);
        new
    }

    /// Counts a line that holds no message.
    pub fn with_foreign(self) -> Tally
        requires few { self.lines < 2 ^ 32 }
        requires small { IsSmall self }
        ensures value { result ≡ with_foreign self }
        ensures small { IsSmall result }
    {
        let mut new = self;
        new.lines += 1;
        new.foreign += 1;
        new
    }

    /// Counts a message about a step.
    pub fn with_step(self, action: Action, stage: TimedStage) -> Tally
        requires few { self.lines < 2 ^ 32 }
        requires small { IsSmall self }
        ensures value { result ≡ with_step action stage self }
        ensures small { IsSmall result }
    {
        let mut new = self;
        new.lines += 1;
        new.completed = counted(self.completed, action, stage);
        new.begun = begun_counted(self.begun, action, stage);
        new.failures = failures_counted(self.failures, action, stage);
        new
    }

    /// Counts a planned change.
    pub fn with_planned(self, intent: Intent) -> Tally
        requires few { self.lines < 2 ^ 32 }
        requires small { IsSmall self }
        ensures value { result ≡ with_planned intent self }
        ensures small { IsSmall result }
    {
        let mut new = self;
        new.lines += 1;
        new.planned = planned_counted(self.planned, intent);
        new.has_plan = true;
        new
    }

    /// Counts the summary of a plan.
    pub fn with_plan_summary(self) -> Tally
        requires few { self.lines < 2 ^ 32 }
        requires small { IsSmall self }
        ensures value { result ≡ with_plan_summary self }
        ensures small { IsSmall result }
    {
        let mut new = self;
        new.lines += 1;
        new.plan_summary = Some(new.lines);
        new.awaits_outputs = true;
        new
    }

    /// Counts the summary of an apply.
    pub fn with_summary(self) -> Tally
        requires few { self.lines < 2 ^ 32 }
        requires small { IsSmall self }
        ensures value { result ≡ with_summary self }
        ensures small { IsSmall result }
    {
        let mut new = self;
        new.lines += 1;
        new.summary = Some(new.lines);
        new.awaits_outputs = true;
        new
    }

    /// Counts outputs.
    pub fn with_outputs(self) -> Tally
        requires few { self.lines < 2 ^ 32 }
        requires small { IsSmall self }
        ensures value { result ≡ with_outputs self }
        ensures small { IsSmall result }
    {
        let mut new = self;
        new.lines += 1;
        new.awaits_outputs = false;
        new
    }

    /// Counts an error without an address.
    pub fn with_error(self) -> Tally
        requires few { self.lines < 2 ^ 32 }
        requires small { IsSmall self }
        ensures value { result ≡ with_error self }
        ensures small { IsSmall result }
    {
        let mut new = self;
        new.lines += 1;
        new.has_failed = true;
        new.errors_without_address += 1;
        new
    }

    /// Counts an error with an address, which explains this many failures.
    pub fn with_error_at(self, failures: u64) -> Tally
        requires few { self.lines < 2 ^ 32 }
        requires small { IsSmall self }
        ensures value { result ≡ with_error_at failures self }
        ensures small { IsSmall result }
    {
        let mut new = self;
        new.lines += 1;
        new.has_failed = true;
        new.failures = self.failures.saturating_sub(failures);
        new
    }

    /// Whether the start of a step exceeds the plan.
    pub fn is_beyond(&self, action: Action, stage: TimedStage) -> bool
        ensures { result ≡ is_beyond action stage self.now }
    {
        match stage {
            TimedStage::Start => self.has_plan
                && is_used_up(share_of(action, self.begun), share_of(action, self.planned)),
            TimedStage::Progress(_) | TimedStage::Complete(_) | TimedStage::Errored(_) => false,
        }
    }

    /// Whether a change of this intent is a create that waits until it begins: no create has begun,
    /// since a plan comes before its apply.
    pub fn awaits_create(&self, intent: Intent) -> bool
        ensures { result ≡ awaits_create intent self.now }
    {
        intent.creates() && self.begun.added == 0
    }

    /// Whether an apply was summed up, and no error was reported.
    pub fn ends_without_error(&self) -> bool
        ensures { result ≡ (is_some self.now.summary && not self.now.has_failed) }
    {
        self.summary.is_some() && !self.has_failed
    }

    /// Whether the lines are those of a plan: its summary was read, no summary of an apply, and no
    /// create, update or delete has started.
    fn is_plan(&self) -> bool
        ensures { result ≡ has_nothing_begun self.now }
    {
        self.plan_summary.is_some() && self.summary.is_none() && agree(self.begun, Totals::NONE)
    }

    /// Whether the lines are a whole stream of a plan, and such a stream is accepted.
    pub fn ends_as_plan(&self, mode: Mode) -> bool
        ensures { result ≡ (mode.plan && has_nothing_begun self.now) }
    {
        let is_plan = self.is_plan();
        mode.plan && is_plan
    }

    /// Whether a summary of an apply or an error was read.
    pub fn ends_as_apply(&self) -> bool
        ensures { result ≡ (is_some self.now.summary || self.now.has_failed) }
    {
        self.summary.is_some() || self.has_failed
    }

    /// Returns the fault of a stream without an end.
    pub fn why_no_end(&self) -> Fault
        ensures { result ≡ no_end_fault self.now }
    {
        if self.is_plan() {
            Fault::NoApply
        } else if self.foreign == self.lines {
            Fault::NoMessage(self.lines)
        } else {
            Fault::NoEnd
        }
    }
}

/// Whether as many steps have started as were planned.
fn is_used_up(begun: Option<u64>, planned: Option<u64>) -> bool
    ensures { result ≡ is_used_up begun planned }
{
    match (begun, planned) {
        (Some(begun), Some(planned)) => planned <= begun,
        _ => false,
    }
}

/// The number of failures after a message about a step.
fn failures_counted(failures: u64, action: Action, stage: TimedStage) -> u64
    requires { failures < 2 ^ 63 }
    ensures { result ≡ failures_counted action stage failures }
{
    match stage {
        TimedStage::Start | TimedStage::Progress(_) | TimedStage::Complete(_) => failures,
        TimedStage::Errored(_) => if may_fail(action) {
            failures + 1
        } else {
            failures
        },
    }
}
