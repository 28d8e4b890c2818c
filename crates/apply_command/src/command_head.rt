//! The lines that stand before an apply.
//!
//! Every `Err` means that memory was refused.

ghost use Rattle.std.specs.Prelude.{◌≡◌, ◌≤◌, ◌++◌, [], ℕ, true, OnOk};
ghost use Rattle.std.specs.Option.{option_copied, option_map_or};
ghost use Rattle.apply_text_terraform.specs.Lines.{message_line};
ghost use Rattle.apply_text_planning.specs.PlanningMessage.{message_of};
ghost use Rattle.apply_command.specs.Head.{drift_at, event_text, line_text, planned_at, read_text, refresh_text, told_text};
ghost use Rattle.apply_command.specs.InTime.{is_in_time, max_took};
ghost use Rattle.apply_command.specs.Lines.{head_view};

use crate::head_line::HeadLine;
use apply_events::{Event, What};
use apply_model::{ChangeDetails, Mode, Plan, Text};
use apply_planning::Told;
use apply_prior::{Drift, PlannedOutput};
use apply_text::Start;
use apply_text_planning::{PlanTotals, PlanningMessage, push_message, push_planned};
use apply_text_terraform::TerraformBuffer;
use std::alloc::AllocError;

/// What the lines before an apply are made of.
#[derive(Clone, Copy)]
pub struct CommandHead<'a> {
    /// The plan, with all its changes.
    pub plan: &'a Plan,
    /// The details of each change, by the change's number.
    pub details: &'a [ChangeDetails],
    /// The drifts.
    pub drifts: &'a [Drift],
    /// The planned changes of the outputs.
    pub outputs: &'a [PlannedOutput],
    /// The objects that are told of the planning.
    pub told: &'a [Told],
    /// The sums of the plan.
    pub totals: PlanTotals,
    /// When the planning begins.
    pub start: Start,
    /// How long it takes, in seconds.
    pub took: u64,
}

impl CommandHead<'_> {
    /// Appends a line. Overwrites `scratch`.
    pub(crate) fn push_line(
        &self,
        lines: &mut TerraformBuffer,
        scratch: &mut String,
        line: HeadLine,
    ) -> Result<(), AllocError>
        requires took { self.now.took ≤ max_took }
        requires in_time { is_in_time line ≡ true }
        ensures { OnOk result (lines.new ≡ lines.old ++ line_text (head_view self.now) line) }
    {
        match line {
            HeadLine::Version => lines.push_version(self.plan, self.start),
            HeadLine::Planning(event) => self.push_event(lines, scratch, event),
            HeadLine::Drift(number) => self.push_drift(lines, scratch, number),
            HeadLine::Planned(number) => self.push_planned(lines, scratch, number),
            HeadLine::Summary => {
                let totals = self.totals;
                let message = PlanningMessage::Summary { totals };
                push_message(lines, scratch, self.start, self.took, message)
            }
            HeadLine::Outputs => {
                let outputs = self.outputs;
                let message = PlanningMessage::Outputs { outputs };
                push_message(lines, scratch, self.start, self.took, message)
            }
        }
    }

    /// Appends the line of an event of the planning, if it has one.
    fn push_event(
        &self,
        lines: &mut TerraformBuffer,
        scratch: &mut String,
        event: Event,
    ) -> Result<(), AllocError>
        requires { event.at ≤ max_took }
        ensures { OnOk result (lines.new ≡ lines.old ++ event_text self.now.start self.now.told.now event) }
    {
        match self.told.get(event.change as usize) {
            Some(told) => match message_of(told, event.what) {
                Some(message) => push_message(lines, scratch, self.start, event.at, message),
                None => Ok(()),
            },
            None => Ok(()),
        }
    }

    /// Appends the line of a drift, by its number.
    fn push_drift(
        &self,
        lines: &mut TerraformBuffer,
        scratch: &mut String,
        number: usize,
    ) -> Result<(), AllocError>
        requires { self.now.took ≤ max_took }
        ensures { OnOk result (lines.new ≡ lines.old ++ drift_at (head_view self.now) number) }
    {
        match self.drifts.get(number) {
            Some(drift) => {
                let message = PlanningMessage::Drift {
                    change: &drift.change,
                    details: &drift.details,
                };
                push_message(lines, scratch, self.start, self.took, message)
            }
            None => Ok(()),
        }
    }

    /// Appends the line of a planned change, by its number, if it has one.
    fn push_planned(
        &self,
        lines: &mut TerraformBuffer,
        scratch: &mut String,
        number: u32,
    ) -> Result<(), AllocError>
        requires { self.now.took ≤ max_took }
        ensures { OnOk result (lines.new ≡ lines.old ++ planned_at (head_view self.now) number) }
    {
        if number >= self.plan.len() {
            return Ok(());
        }
        let change = self.plan.change(number);
        match self.details.get(number as usize) {
            Some(details) => push_planned(lines, scratch, self.start, self.took, change, details),
            None => Ok(()),
        }
    }
}

/// The message of an event of an object that is told. `None` where it has none: progress of a
/// refresh, and failures, which are told as diagnostics.
fn message_of(told: &Told, what: What) -> Option<PlanningMessage<'_>>
    ensures { (seconds : ℕ) → option_map_or (λ message. message_line seconds (message_of message)) result []
        ≡ told_text told.now.object.mode seconds told.now what }
{
    match told.object.mode() {
        Mode::Managed => refresh_message(told, what),
        Mode::DataSource => read_message(told, what),
    }
}

/// The message of an event of an object that is refreshed.
fn refresh_message(told: &Told, what: What) -> Option<PlanningMessage<'_>>
    ensures { (seconds : ℕ) → option_map_or (λ message. message_line seconds (message_of message)) result []
        ≡ refresh_text seconds told.now what }
{
    let object = &told.object;
    match what {
        What::Start => Some(PlanningMessage::RefreshStart {
            object,
            id: shown(&told.id_before),
        }),
        What::Complete(_) => Some(PlanningMessage::RefreshComplete {
            object,
            id: shown(&told.id_after),
        }),
        _ => None,
    }
}

/// The message of an event of a data source that is read.
fn read_message(told: &Told, what: What) -> Option<PlanningMessage<'_>>
    ensures { (seconds : ℕ) → option_map_or (λ message. message_line seconds (message_of message)) result []
        ≡ read_text seconds told.now what }
{
    let object = &told.object;
    match what {
        What::Start => Some(PlanningMessage::ReadStart { object }),
        What::Progress(seconds) => Some(PlanningMessage::ReadProgress { object, seconds }),
        What::Complete(seconds) => Some(PlanningMessage::ReadComplete {
            object,
            seconds,
            id: shown(&told.id_after),
        }),
        _ => None,
    }
}

/// The id, borrowed.
fn shown(id: &Option<Text>) -> Option<&str>
    ensures { option_copied result ≡ id.now }
{
    id.as_ref().map(Text::as_str)
}
