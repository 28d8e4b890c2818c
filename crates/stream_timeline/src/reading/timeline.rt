//! The time line of a stream.

ghost use Rattle.std.specs.Prelude.{◌≡◌, ◌<◌, ◌+◌, ◌^◌, if◌then◌else◌, is_some, min, nat_le, option_map, OnOk, Some};
ghost use Rattle.std.specs.Str.{bytes_eq};
ghost use Rattle.stream_timeline.specs.SlotContents.{diagnostic_in};
ghost use Rattle.stream_timeline.specs.TimeRange.{with_time};
ghost use Rattle.stream_timeline.specs.Steps.{StepRead, at_place, ended, marked, passes_at, has_open_provisioner, with_provisioner, with_provisioner_ended};
ghost use Rattle.stream_timeline.specs.TimelineRead.{max_steps, empty_timeline, with_begin};
ghost use Rattle.stream_timeline.specs.Building.{added, counted_up, marked_at};

use crate::reading::diagnostics::Diagnostics;
use crate::reading::limits::MAX_STEPS;
use crate::reading::step::Step;
use crate::reading::time_range::{TimeRange, with_time};
use crate::reading::totals::Totals;
use crate::reading::version::Version;
use std::alloc::{AllocError, Global};
use std::marker::Model;
use stream_message::DiagnosticSlots;

/// What was read of a stream: its steps, diagnostics and totals, and how many lines were passed
/// over. Its memory grows only with the number of steps and provisioners.
#[derive(Drop)]
pub struct Timeline {
    pub(crate) lines: u64,
    pub(crate) runs: u64,
    pub(crate) passed_over: u64,
    pub(crate) version: Option<Version>,
    pub(crate) totals: Option<Totals>,
    pub(crate) plan_totals: Option<Totals>,
    pub(crate) time_range: Option<TimeRange>,
    pub(crate) steps: Vec<Step>,
    pub(crate) begun: usize,
    pub(crate) errors: Diagnostics,
    pub(crate) warnings: Diagnostics,
}

impl Model for Timeline {
    ghost use Rattle.stream_timeline.specs.TimelineRead.{TimelineRead};

    ghost Value = { TimelineRead };

    ghost view = { λ t. record {
      lines = t.lines;
      runs = t.runs;
      passed_over = t.passed_over;
      version = t.version;
      totals = t.totals;
      plan_totals = t.plan_totals;
      time_range = t.time_range;
      steps = t.steps.items;
      begun = t.begun;
      errors = t.errors;
      warnings = t.warnings;
    } };
}

#[tactic(auto, using(crate::proofs::AtPlace::at_place_set, crate::proofs::AtPlace::at_place_past, crate::proofs::AtPlace::passes_at_get, crate::proofs::AtPlace::passes_at_past))]
impl Timeline {
    /// The time line of no lines.
    pub(crate) fn new(alloc: Global) -> Timeline
        ensures { result ≡ empty_timeline }
    {
        Timeline {
            lines: 0,
            runs: 0,
            passed_over: 0,
            version: None,
            totals: None,
            plan_totals: None,
            time_range: None,
            steps: Vec::new(alloc),
            begun: 0,
            errors: Diagnostics::new(alloc),
            warnings: Diagnostics::new(alloc),
        }
    }

    /// Counts a line, and the run that begins with it.
    pub(crate) fn count_line(&mut self, begins_run: bool)
        requires { self.old.lines < 2 ^ 63 }
        ensures { self.new ≡ counted_up begins_run self.old }
    {
        self.lines += 1;
        self.runs = with_run(self.runs, begins_run);
    }

    /// Counts a line that was passed over.
    pub(crate) fn pass_over(&mut self)
        ensures { self.new ≡ record self.old { passed_over = min (self.old.passed_over + 1) u64.MAX } }
    {
        self.passed_over = self.passed_over.saturating_add(1);
    }

    /// Adds the timestamp of a message.
    pub(crate) fn add_time(&mut self, time: i64)
        ensures { self.new ≡ record self.old { time_range = Some (with_time time self.old.time_range) } }
    {
        self.time_range = Some(with_time(self.time_range, time));
    }

    /// Sets the version. `Err` means that memory was refused.
    pub(crate) fn set_version(&mut self, alloc: Global, text: &str) -> Result<(), AllocError>
        ensures { OnOk result (self.new ≡ record self.old { version = Some text.now }) }
    {
        self.version = Some(Version::new(alloc, text)?);
        Ok(())
    }

    /// Sets the totals. Those of the last summary count.
    pub(crate) fn set_totals(&mut self, totals: Totals)
        ensures { self.new ≡ record self.old { totals = Some totals } }
    {
        self.totals = Some(totals);
    }

    /// Sets the totals of the plan. Those of its last summary count.
    pub(crate) fn set_plan_totals(&mut self, totals: Totals)
        ensures { self.new ≡ record self.old { plan_totals = Some totals } }
    {
        self.plan_totals = Some(totals);
    }

    /// Adds an error. `Err` means that memory was refused.
    pub(crate) fn add_error(
        &mut self,
        alloc: Global,
        slots: &DiagnosticSlots<'_>,
    ) -> Result<(), AllocError>
        ensures { OnOk result (self.new ≡ record self.old { errors = added (diagnostic_in slots.now) self.old.errors }) }
    {
        self.errors.add(alloc, slots)
    }

    /// Adds a warning. `Err` means that memory was refused.
    pub(crate) fn add_warning(
        &mut self,
        alloc: Global,
        slots: &DiagnosticSlots<'_>,
    ) -> Result<(), AllocError>
        ensures { OnOk result (self.new ≡ record self.old { warnings = added (diagnostic_in slots.now) self.old.warnings }) }
    {
        self.warnings.add(alloc, slots)
    }

    /// Whether 100,000 steps and provisioners have begun.
    pub(crate) fn is_full(&self) -> bool
        ensures { result ≡ nat_le max_steps self.now.begun }
    {
        self.begun >= MAX_STEPS
    }

    /// Begins a step at `time`. `Err` means that memory was refused.
    pub(crate) fn begin(
        &mut self,
        alloc: Global,
        address: &str,
        action: &str,
        time: i64,
    ) -> Result<(), AllocError>
        requires { self.old.begun < max_steps }
        ensures { OnOk result (self.new ≡ with_begin address.now action.now time self.old) }
    {
        let step = Step::begun(alloc, self.lines, address, action, time)?;
        self.steps.push(step)?;
        self.begun += 1;
        Ok(())
    }

    /// Whether the step at index `place` has this action.
    pub(crate) fn has_action(&self, place: usize, action: &str) -> bool
        ensures { result ≡ passes_at place (λ (step : StepRead). bytes_eq step.action action.now) self.now.steps }
    {
        place < self.steps.len() && self.steps[place].action() == action
    }

    /// Ends the step at index `place`.
    pub(crate) fn end(&mut self, place: usize, failed: bool, time: i64)
        ensures { self.new ≡ record self.old { steps = at_place place (ended time failed) self.old.steps } }
    {
        if place < self.steps.len() {
            self.steps[place].end_at(time, failed);
        }
    }

    /// Begins a provisioner in the step at index `place`. `Err` means that memory was refused.
    pub(crate) fn begin_provisioner(
        &mut self,
        alloc: Global,
        place: usize,
        name: &str,
        time: i64,
    ) -> Result<(), AllocError>
        requires { self.old.begun < max_steps }
        ensures { OnOk result (self.new ≡ record self.old {
          steps = at_place place (with_provisioner name.now time) self.old.steps;
          begun = self.old.begun + 1;
        }) }
    {
        if place < self.steps.len() {
            self.steps[place].begin_provisioner(alloc, name, time)?;
        }
        self.begun += 1;
        Ok(())
    }

    /// Whether the newest provisioner of the step at index `place` has no end.
    pub(crate) fn has_open_provisioner(&self, place: usize) -> bool
        ensures { result ≡ passes_at place has_open_provisioner self.now.steps }
    {
        place < self.steps.len() && self.steps[place].has_open_provisioner()
    }

    /// Ends the newest provisioner of the step at index `place`.
    pub(crate) fn end_provisioner(&mut self, place: usize, failed: bool, time: i64)
        ensures { self.new ≡ record self.old { steps = at_place place (with_provisioner_ended time failed) self.old.steps } }
    {
        if place < self.steps.len() {
            self.steps[place].end_provisioner(time, failed);
        }
    }

    /// Marks the step at index `place` as failed.
    pub(crate) fn mark(&mut self, place: usize)
        ensures { self.new ≡ record self.old { steps = at_place place marked self.old.steps } }
    {
        if place < self.steps.len() {
            self.steps[place].mark();
        }
    }

    /// Marks the steps at these indexes as failed.
    pub(crate) fn mark_all(&mut self, places: &[usize])
        ensures { self.new ≡ record self.old { steps = marked_at places.now self.old.steps } }
    {
        for place in places {
            self.mark(*place);
        }
    }

    /// How many lines were read.
    pub fn lines(&self) -> u64
        ensures { result ≡ self.now.lines }
    {
        self.lines
    }

    /// How many runs of Terraform begin in the lines: how many of them are `version` messages, with
    /// or without a valid timestamp.
    pub fn runs(&self) -> u64
        ensures { result ≡ self.now.runs }
    {
        self.runs
    }

    /// How many lines were passed over:
    /// - lines that are neither blank nor a message,
    /// - messages about a step or a provisioner without an address or action,
    /// - messages that end something that is not open,
    /// - begins of a provisioner where no step is open,
    /// - diagnostics that are neither errors nor warnings.
    pub fn passed_over(&self) -> u64
        ensures { result ≡ self.now.passed_over }
    {
        self.passed_over
    }

    /// The version of Terraform, if the stream states it.
    pub fn version(&self) -> Option<&str>
        ensures { option_map (λ text. text.now) result ≡ self.now.version }
    {
        match &self.version {
            Some(version) => Some(version.as_str()),
            None => None,
        }
    }

    /// The totals of the last summary that is not a plan's.
    pub fn totals(&self) -> Option<Totals>
        ensures { result ≡ self.now.totals }
    {
        self.totals
    }

    /// The totals of the last summary of a plan.
    pub fn plan_totals(&self) -> Option<Totals>
        ensures { result ≡ self.now.plan_totals }
    {
        self.plan_totals
    }

    /// Whether the stream has the summary of a plan.
    pub fn has_plan_summary(&self) -> bool
        ensures { result ≡ is_some self.now.plan_totals }
    {
        self.plan_totals.is_some()
    }

    /// The first and the last timestamp. `None` if no line is a message.
    pub fn time_range(&self) -> Option<TimeRange>
        ensures { result ≡ self.now.time_range }
    {
        self.time_range
    }

    /// The steps, in the order of the lines that begin them.
    pub fn steps(&self) -> &[Step]
        ensures { result.now ≡ self.now.steps }
    {
        self.steps.as_slice()
    }

    /// The errors.
    pub fn errors(&self) -> &Diagnostics
        ensures { result.now ≡ self.now.errors }
    {
        &self.errors
    }

    /// The warnings.
    pub fn warnings(&self) -> &Diagnostics
        ensures { result.now ≡ self.now.warnings }
    {
        &self.warnings
    }
}

/// The number of runs after a line with which one begins or not. It stops at its greatest value.
fn with_run(runs: u64, begins_run: bool) -> u64
    ensures { result ≡ (if begins_run then min (runs + 1) u64.MAX else runs) }
{
    if begins_run {
        runs.saturating_add(1)
    } else {
        runs
    }
}
