//! Checks one message after another. Each `Err` is the fault of the message, or `Fault::Memory`.
//! The checker is unchanged then.

ghost use Rattle.std.specs.Prelude.{◌≡◌, ◌<◌, ◌^◌, Some, true, false};
ghost use Rattle.std.specs.Option.{option_copied};
ghost use Rattle.stream_check.specs.Tally.{failure_count};

use crate::messages::action::Action;
use crate::messages::intent::Intent;
use crate::messages::message::Message;
use crate::messages::timed_stage::TimedStage;
use crate::messages::totals::{Totals, agree};
use crate::rules::address_state::{Failures, failures_cleared, provision_on, step_on};
use crate::rules::checker::Checker;
use crate::rules::fault::Fault;
use std::alloc::Global;
use stream_message::Stage;

impl Checker {
    ghost use Rattle.stream_check.specs.Checking.{Continues, lines_read};
    ghost use Rattle.stream_check.specs.Lines.{as_first, after_version, next};
    ghost use Rattle.stream_check.specs.Message.{step, provision, planned, plan_summary, summary, diagnostic, outputs};
    ghost use Rattle.stream_check.specs.MessageView.{message_view};

    /// Checks a message.
    pub(crate) fn message(&mut self, alloc: Global, message: Message<'_>) -> Result<(), Fault>
        requires { lines_read self.old < 2 ^ 32 }
        ensures { Continues self.old self.new (λ messages. next messages (message_view message.entry)) result }
    {
        let Some(first) = self.tally.version else {
            return self.first(message);
        };
        match message {
            Message::Version => Err(Fault::VersionAgain(first)),
            Message::Step {
                address,
                action,
                stage,
            } => self.step(alloc, address, action, stage),
            Message::Provision { address, stage } => self.provision(alloc, address, stage),
            Message::Planned { intent, address } => self.plan(alloc, intent, address),
            Message::PlanSummary { totals } => self.plan_summary(totals),
            Message::Summary { totals } => self.summary(totals),
            Message::Diagnostic { is_error, address } => self.diagnostic(alloc, is_error, address),
            Message::Outputs => self.outputs(),
            Message::Other => {
                self.tally = self.tally.with_line();
                Ok(())
            }
            Message::Foreign => {
                self.tally = self.tally.with_foreign();
                Ok(())
            }
        }
    }

    /// Checks a message before the version.
    fn first(&mut self, message: Message<'_>) -> Result<(), Fault>
        requires { lines_read self.old < 2 ^ 32 }
        ensures { Continues self.old self.new (λ messages. as_first messages (message_view message.entry)) result }
    {
        match message {
            Message::Version => {
                self.tally = self.tally.with_version();
                Ok(())
            }
            Message::Foreign => {
                self.tally = self.tally.with_foreign();
                Ok(())
            }
            _ => Err(Fault::NoVersion),
        }
    }

    /// Checks a message about a step.
    fn step(
        &mut self,
        alloc: Global,
        address: &str,
        action: Action,
        stage: TimedStage,
    ) -> Result<(), Fault>
        requires { lines_read self.old < 2 ^ 32 }
        ensures { Continues self.old self.new (λ messages. after_version messages 0 (step address.now action stage)) result }
    {
        match stage {
            TimedStage::Progress(seconds) => self.progress(address, action, seconds),
            _ => self.start_or_end(alloc, address, action, stage),
        }
    }

    /// Checks a progress of a step.
    fn progress(&mut self, address: &str, action: Action, seconds: u64) -> Result<(), Fault>
        requires { lines_read self.old < 2 ^ 32 }
        ensures { Continues self.old self.new (λ messages. after_version messages 0 (step address.now action (TimedStage.Progress seconds))) result }
    {
        if let Some(line) = self.tally.summary {
            return Err(Fault::AfterSummary(line));
        }
        match self
            .pending
            .note_progress(address, action, seconds, self.tally.lines + 1)
        {
            Ok(()) => {
                self.tally = self.tally.with_line();
                Ok(())
            }
            Err(fault) => Err(fault),
        }
    }

    /// Checks the start or the end of a step.
    fn start_or_end(
        &mut self,
        alloc: Global,
        address: &str,
        action: Action,
        stage: TimedStage,
    ) -> Result<(), Fault>
        requires { lines_read self.old < 2 ^ 32 }
        ensures { Continues self.old self.new (λ messages. after_version messages 0 (step address.now action stage)) result }
    {
        if let Some(line) = self.tally.summary {
            return Err(Fault::AfterSummary(line));
        }
        let state = match step_on(
            action,
            stage,
            self.tally.lines + 1,
            self.pending.at(address),
        ) {
            Ok(state) => state,
            Err(fault) => return Err(fault),
        };
        if self.tally.is_beyond(action, stage) {
            return Err(Fault::NotPlanned);
        }
        let Ok(()) = self.pending.set(alloc, address, state) else {
            return Err(Fault::Memory);
        };
        self.unbegun.step(address, action, stage);
        self.tally = self.tally.with_step(action, stage);
        Ok(())
    }

    /// Checks a message about a provisioner.
    fn provision(&mut self, alloc: Global, address: &str, stage: Stage) -> Result<(), Fault>
        requires { lines_read self.old < 2 ^ 32 }
        ensures { Continues self.old self.new (λ messages. after_version messages 0 (provision address.now stage)) result }
    {
        if let Some(line) = self.tally.summary {
            return Err(Fault::AfterSummary(line));
        }
        let state = match provision_on(stage, self.tally.lines + 1, self.pending.at(address)) {
            Ok(state) => state,
            Err(fault) => return Err(fault),
        };
        let Ok(()) = self.pending.set(alloc, address, state) else {
            return Err(Fault::Memory);
        };
        self.tally = self.tally.with_line();
        Ok(())
    }

    /// Checks a planned change.
    fn plan(&mut self, alloc: Global, intent: Intent, address: Option<&str>) -> Result<(), Fault>
        requires { lines_read self.old < 2 ^ 32 }
        ensures { Continues self.old self.new (λ messages. after_version messages 0 (planned intent (option_copied address.entry))) result }
    {
        if let Some(line) = self.tally.summary {
            return Err(Fault::AfterSummary(line));
        }
        let counts = self.tally.awaits_create(intent);
        let line = self.tally.lines + 1;
        let Ok(()) = self.unbegun.plan(alloc, counts, address, line) else {
            return Err(Fault::Memory);
        };
        self.tally = self.tally.with_planned(intent);
        Ok(())
    }

    /// Checks the summary of a plan.
    fn plan_summary(&mut self, totals: Totals) -> Result<(), Fault>
        requires { lines_read self.old < 2 ^ 32 }
        ensures { Continues self.old self.new (λ messages. after_version messages 0 (plan_summary totals)) result }
    {
        if let Some(line) = self.tally.summary {
            return Err(Fault::AfterSummary(line));
        }
        if let Some(line) = self.tally.plan_summary {
            return Err(Fault::PlanAgain(line));
        }
        if !agree(totals, self.tally.planned) {
            return Err(Fault::WrongPlanTotals(totals, self.tally.planned));
        }
        self.tally = self.tally.with_plan_summary();
        Ok(())
    }

    /// Checks the summary of an apply.
    fn summary(&mut self, totals: Totals) -> Result<(), Fault>
        requires { lines_read self.old < 2 ^ 32 }
        ensures { Continues self.old self.new (λ messages. after_version messages 0 (summary totals)) result }
    {
        if let Some(line) = self.tally.summary {
            return Err(Fault::AfterSummary(line));
        }
        if self.is_open() {
            return Err(Fault::Unended);
        }
        if !agree(totals, self.tally.completed) {
            return Err(Fault::WrongTotals(totals, self.tally.completed));
        }
        self.tally = self.tally.with_summary();
        Ok(())
    }

    /// Checks outputs.
    fn outputs(&mut self) -> Result<(), Fault>
        requires { lines_read self.old < 2 ^ 32 }
        ensures { Continues self.old self.new (λ messages. after_version messages 0 outputs) result }
    {
        if self.tally.awaits_outputs {
            self.tally = self.tally.with_outputs();
            Ok(())
        } else {
            Err(Fault::OutputsAlone)
        }
    }

    /// Checks a diagnostic.
    fn diagnostic(
        &mut self,
        alloc: Global,
        is_error: bool,
        address: Option<&str>,
    ) -> Result<(), Fault>
        requires { lines_read self.old < 2 ^ 32 }
        ensures { Continues self.old self.new (λ messages. after_version messages 0 (diagnostic is_error (option_copied address.entry))) result }
    {
        if !is_error {
            return self.warning(address);
        }
        match address {
            Some(address) => self.error_at(alloc, address),
            None => {
                self.tally = self.tally.with_error();
                Ok(())
            }
        }
    }

    /// Accepts a diagnostic that is no error.
    fn warning(&mut self, address: Option<&str>) -> Result<(), Fault>
        requires { lines_read self.old < 2 ^ 32 }
        ensures { Continues self.old self.new (λ messages. after_version messages 0 (diagnostic false (option_copied address.entry))) result }
    {
        self.tally = self.tally.with_line();
        Ok(())
    }

    /// Checks an error that names an address: it explains the failures there.
    fn error_at(&mut self, alloc: Global, address: &str) -> Result<(), Fault>
        requires { lines_read self.old < 2 ^ 32 }
        ensures { Continues self.old self.new (λ messages. after_version messages 0 (diagnostic true (Some address.now))) result }
    {
        let state = self.pending.at(address);
        let Ok(()) = self
            .pending
            .set(alloc, address, failures_cleared(true, state))
        else {
            return Err(Fault::Memory);
        };
        let count = failure_count(state.failures);
        self.tally = self.tally.with_error_at(count);
        Ok(())
    }
}

/// How many failures there are.
fn failure_count(failures: Option<Failures>) -> u64
    ensures { result ≡ failure_count failures }
{
    match failures {
        Some(failures) => failures.count,
        None => 0,
    }
}
