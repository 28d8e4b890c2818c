//! Writes messages token by token into the buffer of a line. `scratch` is working memory for the
//! texts of a message. Every `Err` means that memory was refused, and a part of the message may be
//! written then.

ghost use Rattle.std.specs.Prelude.{◌≡◌, string_bytes, OnOk};
ghost use Rattle.std.specs.Option.{option_copied};
ghost use Rattle.apply_model.specs.Script.Outcome.{default_outcome};
ghost use Rattle.apply_text.specs.Sending.{Sends, message_tokens};
ghost use Rattle.apply_text_terraform.specs.Message.{event_message};
ghost use Rattle.apply_text_planning.specs.Message.{drift_message, plan_outputs_message, plan_summary_message, read_start_message, refresh_message};
ghost use Rattle.apply_text_planning.specs.PlanningMessage.{message_of};

use crate::outputs::put_outputs;
use crate::plan_totals::PlanTotals;
use crate::planning_message::PlanningMessage;
use crate::words::drift_word;
use apply_events::What;
use apply_model::{Change, ChangeDetails, StepKind};
use apply_prior::PlannedOutput;
use apply_text::parts::{AppliedStep, IdSuffix, end_message, put_id, put_number, put_text};
use apply_text_terraform::parts::{
    UtcTimestamp, begin_message, put_event, put_hook, put_planned, put_previous_if, put_resource,
};
use json::Writer;
use std::alloc::AllocError;

/// Writes a message.
pub fn put_message(
    out: &mut Writer,
    scratch: &mut String,
    timestamp: &UtcTimestamp,
    message: PlanningMessage<'_>,
) -> Result<(), AllocError>
    ensures { Sends result out.old out.new (message_tokens timestamp.now (message_of message.entry)) }
{
    match message {
        PlanningMessage::RefreshStart { object, id } => {
            let words = "Refreshing state...";
            put_refresh(out, scratch, timestamp, object, words, id, "refresh_start")
        }
        PlanningMessage::RefreshComplete { object, id } => {
            let words = "Refresh complete";
            put_refresh(
                out,
                scratch,
                timestamp,
                object,
                words,
                id,
                "refresh_complete",
            )
        }
        PlanningMessage::ReadStart { object } => put_read_start(out, scratch, timestamp, object),
        PlanningMessage::ReadProgress { object, seconds } => {
            let what = What::Progress(seconds);
            put_read(out, scratch, timestamp, object, None, what)
        }
        PlanningMessage::ReadComplete {
            object,
            seconds,
            id,
        } => {
            let what = What::Complete(seconds);
            put_read(out, scratch, timestamp, object, id, what)
        }
        PlanningMessage::Drift { change, details } => {
            put_drift(out, scratch, timestamp, change, details)
        }
        PlanningMessage::Planned {
            change,
            word,
            details,
        } => put_planned(out, scratch, timestamp, change, word, details),
        PlanningMessage::Summary { totals } => put_summary(out, scratch, timestamp, totals),
        PlanningMessage::Outputs { outputs } => {
            put_plan_outputs(out, scratch, timestamp, outputs)
        }
    }
}

/// Writes the message of an event of a data source's read. `id` is the id that a completion shows.
fn put_read(
    out: &mut Writer,
    scratch: &mut String,
    timestamp: &UtcTimestamp,
    object: &Change,
    id: Option<&str>,
    what: What,
) -> Result<(), AllocError>
    ensures { Sends result out.old out.new (message_tokens timestamp.now
        (event_message object.now StepKind.Read default_outcome (option_copied id.entry) what)) }
{
    let step = AppliedStep {
        change: object,
        kind: StepKind::Read,
        outcome: None,
    };
    put_event(out, scratch, timestamp, step, id, what)
}

/// Writes a message about the refresh of an object. `words` are the text before the id.
fn put_refresh(
    out: &mut Writer,
    scratch: &mut String,
    timestamp: &UtcTimestamp,
    object: &Change,
    words: &str,
    id: Option<&str>,
    type_name: &str,
) -> Result<(), AllocError>
    ensures { Sends result out.old out.new (message_tokens timestamp.now
        (refresh_message object.now words.now (option_copied id.entry) type_name.now)) }
{
    let address = object.address();
    let note = IdSuffix { id };
    scratch.clear();
    write!(scratch, "{address}: {words}{note}")?;
    begin_message(out, scratch, "info", timestamp)?;
    out.key("hook")?;
    out.begin_object()?;
    put_resource(out, object)?;
    put_id(out, id)?;
    out.end_object()?;
    end_message(out, type_name)
}

/// Writes the start of a read, without an id.
fn put_read_start(
    out: &mut Writer,
    scratch: &mut String,
    timestamp: &UtcTimestamp,
    object: &Change,
) -> Result<(), AllocError>
    ensures { Sends result out.old out.new (message_tokens timestamp.now (read_start_message object.now)) }
{
    let address = object.address();
    scratch.clear();
    write!(scratch, "{address}: Refreshing...")?;
    begin_message(out, scratch, "info", timestamp)?;
    put_hook(out, object, StepKind::Read, None, None)?;
    end_message(out, "apply_start")
}

/// Writes how an object has changed outside of Terraform.
fn put_drift(
    out: &mut Writer,
    scratch: &mut String,
    timestamp: &UtcTimestamp,
    change: &Change,
    details: &ChangeDetails,
) -> Result<(), AllocError>
    ensures { Sends result out.old out.new
        (message_tokens timestamp.now (drift_message change.now details.now)) }
{
    let address = change.address();
    let word = drift_word(change.steps(), details.forgets);
    scratch.clear();
    write!(scratch, "{address}: Drift detected ({word})")?;
    begin_message(out, scratch, "info", timestamp)?;
    out.key("change")?;
    out.begin_object()?;
    put_resource(out, change)?;
    put_previous_if(out, details.previous.as_ref())?;
    put_text(out, "action", word)?;
    out.end_object()?;
    end_message(out, "resource_drift")
}

/// Writes the plan's summary.
fn put_summary(
    out: &mut Writer,
    scratch: &mut String,
    timestamp: &UtcTimestamp,
    totals: PlanTotals,
) -> Result<(), AllocError>
    ensures { Sends result out.old out.new (message_tokens timestamp.now (plan_summary_message totals)) }
{
    write_totals(scratch, totals)?;
    begin_message(out, scratch, "info", timestamp)?;
    out.key("changes")?;
    out.begin_object()?;
    put_number(out, "add", totals.added)?;
    put_number(out, "change", totals.changed)?;
    put_number(out, "import", totals.imported)?;
    put_number(out, "remove", totals.removed)?;
    put_text(out, "operation", "plan")?;
    out.end_object()?;
    end_message(out, "change_summary")
}

/// Replaces `scratch` by the text of the plan's summary.
fn write_totals(scratch: &mut String, totals: PlanTotals) -> Result<(), AllocError>
    ensures { OnOk result (string_bytes scratch.new ≡ (plan_summary_message totals).text) }
{
    let added = totals.added;
    let changed = totals.changed;
    let removed = totals.removed;
    let imported = totals.imported;
    scratch.clear();
    if imported == 0 {
        return write!(
            scratch,
            "Plan: {added} to add, {changed} to change, {removed} to destroy."
        );
    }
    write!(
        scratch,
        "Plan: {imported} to import, {added} to add, {changed} to change, {removed} to destroy."
    )
}

/// Writes the planned changes of outputs.
fn put_plan_outputs(
    out: &mut Writer,
    scratch: &mut String,
    timestamp: &UtcTimestamp,
    outputs: &[PlannedOutput],
) -> Result<(), AllocError>
    ensures { Sends result out.old out.new
        (message_tokens timestamp.now (plan_outputs_message outputs.now)) }
{
    let count = outputs.len();
    scratch.clear();
    write!(scratch, "Outputs: {count}")?;
    begin_message(out, scratch, "info", timestamp)?;
    put_outputs(out, outputs)?;
    end_message(out, "outputs")
}
