//! Writes messages token by token into the buffer of a line. `scratch` is working memory for the
//! texts of a message. Every `Err` means that memory was refused, and a part of the message may be
//! written then.

ghost use Rattle.std.specs.Prelude.{◌≡◌, ◌++◌, codes, string_bytes, OnOk};
ghost use Rattle.apply_text.specs.declared.applied_step.AppliedStep.{AppliedStep};
ghost use Rattle.apply_text.specs.AppliedStep.{message_of};
ghost use Rattle.apply_text.specs.Lines.{message_object, version_members};
ghost use Rattle.apply_text.specs.Message as messages;
ghost use Rattle.apply_text.specs.Sending.{Sends, data_tokens, member_tokens, message_tokens};

use crate::applied_step::{AppliedStep, DiagTexts};
use crate::display::elapsed::Elapsed;
use crate::display::id_suffix::IdSuffix;
use crate::display::timestamp::UtcTimestamp;
use crate::objects::changes_object::put_changes;
use crate::objects::diagnostic_object::put_diagnostic;
use crate::objects::hook_object::put_hook;
use crate::objects::member::put_text;
use crate::objects::message_object::{begin_message, end_message};
use crate::objects::provisioner_object::put_provisioner;
use crate::operation::Operation;
use crate::step_words::{StepWords, phase_words};
use apply_events::{Counts, What};
use json::Writer;
use std::alloc::AllocError;

/// Writes the version message.
pub fn put_version(
    out: &mut Writer,
    scratch: &mut String,
    timestamp: &UtcTimestamp,
    version: &str,
) -> Result<(), AllocError>
    ensures { Sends result out.old out.new (data_tokens
        (message_object (codes "info") (codes "Terraform " ++ version.now) timestamp.now (version_members version.now))) }
{
    scratch.clear();
    write!(scratch, "Terraform {version}")?;
    begin_message(out, scratch, "info", timestamp)?;
    put_text(out, "terraform", version)?;
    put_text(out, "type", "version")?;
    put_text(out, "ui", "1.0")?;
    out.end_object()
}

/// Writes the summary.
pub fn put_summary(
    out: &mut Writer,
    scratch: &mut String,
    timestamp: &UtcTimestamp,
    operation: Operation,
    counts: &Counts,
) -> Result<(), AllocError>
    ensures { Sends result out.old out.new
        (message_tokens timestamp.now (messages.summary_message operation counts.now)) }
{
    write_totals(scratch, operation, counts)?;
    begin_message(out, scratch, "info", timestamp)?;
    put_changes(out, operation, counts)?;
    end_message(out, "change_summary")
}

/// Replaces `scratch` by the text of the summary.
fn write_totals(
    scratch: &mut String,
    operation: Operation,
    counts: &Counts,
) -> Result<(), AllocError>
    ensures { OnOk result (string_bytes scratch.new ≡ messages.totals_text operation counts.now) }
{
    let added = counts.added;
    let changed = counts.changed;
    let removed = counts.removed;
    scratch.clear();
    match operation {
        Operation::Apply => write!(
            scratch,
            "Apply complete! Resources: {added} added, {changed} changed, {removed} destroyed."
        ),
        Operation::Destroy => write!(scratch, "Destroy complete! Resources: {removed} destroyed."),
    }
}

/// Writes the message of an event of a step.
pub fn put_event(
    out: &mut Writer,
    scratch: &mut String,
    timestamp: &UtcTimestamp,
    step: AppliedStep<'_>,
    what: What,
) -> Result<(), AllocError>
    ensures { Sends result out.old out.new (message_tokens timestamp.now (message_of step.entry what)) }
{
    write_event_text(scratch, step, what)?;
    begin_message(out, scratch, level(what), timestamp)?;
    put_body(out, scratch, step, what)?;
    end_message(out, type_name(what))
}

/// Replaces `scratch` by the text of an event's message.
pub fn write_event_text(
    scratch: &mut String,
    step: AppliedStep<'_>,
    what: What,
) -> Result<(), AllocError>
    ensures { OnOk result (string_bytes scratch.new ≡ (message_of step.entry what).text) }
{
    let address = step.change.address();
    scratch.clear();
    match what {
        What::Start => {
            let word = StepWords::new(step.kind).start;
            let note = IdSuffix {
                id: step.start_id(),
            };
            write!(scratch, "{address}: {word}...{note}")
        }
        What::Progress(seconds) => {
            let word = StepWords::new(step.kind).still;
            let elapsed = Elapsed { seconds };
            write!(scratch, "{address}: Still {word}... [{elapsed} elapsed]")
        }
        What::Complete(seconds) => {
            let noun = StepWords::new(step.kind).noun;
            let elapsed = Elapsed { seconds };
            let note = IdSuffix { id: step.end_id() };
            write!(scratch, "{address}: {noun} complete after {elapsed}{note}")
        }
        What::Errored(seconds) => {
            let noun = StepWords::new(step.kind).noun;
            let elapsed = Elapsed { seconds };
            write!(scratch, "{address}: {noun} errored after {elapsed}")
        }
        What::ErrorNote => {
            let DiagTexts { summary, .. } = step.failure();
            write!(scratch, "Error: {summary}")
        }
        What::WarnNote => {
            let DiagTexts { summary, .. } = step.warning();
            write!(scratch, "Warning: {summary}")
        }
        What::Halted { .. } => write!(scratch, "Error: execution halted"),
        What::ProvisionStart(number) => {
            let name = step.provisioner_name(number);
            write!(scratch, "{address}: Provisioning with '{name}'...")
        }
        What::ProvisionOutput { prov, line } => {
            let name = step.provisioner_name(prov);
            let output = step.output(prov, line);
            write!(scratch, "{address}: ({name}): {output}")
        }
        What::ProvisionComplete(number) => {
            let name = step.provisioner_name(number);
            write!(scratch, "{address}: ({name}) Provisioning complete")
        }
        What::ProvisionErrored(number) => {
            let name = step.provisioner_name(number);
            write!(scratch, "{address}: ({name}) Provisioning errored")
        }
    }
}

/// The level of an event's message.
pub fn level(what: What) -> &'static str
    ensures { (step : AppliedStep) → result.now ≡ (message_of step what).level }
{
    match what {
        What::Start | What::Progress(_) | What::Complete(_) | What::Errored(_) => "info",
        What::ProvisionStart(_) | What::ProvisionOutput { .. } => "info",
        What::ProvisionComplete(_) | What::ProvisionErrored(_) => "info",
        What::ErrorNote | What::Halted { .. } => "error",
        What::WarnNote => "warn",
    }
}

/// The type of an event's message.
pub fn type_name(what: What) -> &'static str
    ensures { (step : AppliedStep) → result.now ≡ (message_of step what).type_name }
{
    match what {
        What::Start => "apply_start",
        What::Progress(_) => "apply_progress",
        What::Complete(_) => "apply_complete",
        What::Errored(_) => "apply_errored",
        What::ErrorNote | What::WarnNote | What::Halted { .. } => "diagnostic",
        What::ProvisionStart(_) => "provision_start",
        What::ProvisionOutput { .. } => "provision_progress",
        What::ProvisionComplete(_) => "provision_complete",
        What::ProvisionErrored(_) => "provision_errored",
    }
}

/// Writes the member that only messages of this type have: `hook` or `diagnostic`.
fn put_body(
    out: &mut Writer,
    scratch: &mut String,
    step: AppliedStep<'_>,
    what: What,
) -> Result<(), AllocError>
    ensures { Sends result out.old out.new
        (member_tokens (message_of step.entry what).name (message_of step.entry what).body) }
{
    let AppliedStep { change, kind, .. } = step;
    match what {
        What::Start => put_hook(out, change, kind, None, step.start_id()),
        What::Progress(seconds) => put_hook(out, change, kind, Some(seconds), None),
        What::Complete(seconds) => put_hook(out, change, kind, Some(seconds), step.end_id()),
        What::Errored(seconds) => put_hook(out, change, kind, Some(seconds), None),
        What::ErrorNote => put_diagnostic(out, change.address(), "error", step.failure()),
        What::WarnNote => put_diagnostic(out, change.address(), "warning", step.warning()),
        What::Halted { phase, hook } => {
            let words = phase_words(phase);
            let action = StepWords::new(kind).action;
            scratch.clear();
            write!(scratch, "Hook {hook} answered Halt {words} {action}.")?;
            let halt = DiagTexts::of_halt(scratch.as_str());
            put_diagnostic(out, change.address(), "error", halt)
        }
        What::ProvisionStart(number)
        | What::ProvisionComplete(number)
        | What::ProvisionErrored(number) => {
            put_provisioner(out, change, step.provisioner_name(number), None)
        }
        What::ProvisionOutput { prov, line } => {
            let output = step.output(prov, line);
            put_provisioner(out, change, step.provisioner_name(prov), Some(output))
        }
    }
}
