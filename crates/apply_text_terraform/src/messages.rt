//! Writes messages token by token into the buffer of a line. `scratch` is working memory for the
//! texts of a message. Every `Err` means that memory was refused, and a part of the message may be
//! written then.

ghost use Rattle.std.specs.Prelude.{◌≡◌, ◌++◌, codes, string_bytes, OnOk, is_some};
ghost use Rattle.std.specs.Option.{option_copied};
ghost use Rattle.apply_model.specs.Script.Outcome.{first_diag};
ghost use Rattle.apply_text.specs.AppliedStep.{outcome_view};
ghost use Rattle.apply_text.specs.Lines.{message_object};
ghost use Rattle.apply_text.specs.Sending.{Sends, data_tokens, head_tokens, member_tokens, message_tokens};
ghost use Rattle.apply_text_terraform.specs.AppliedStep.{message_of};
ghost use Rattle.apply_text_terraform.specs.Lines.{version_members};
ghost use Rattle.apply_text_terraform.specs.Message.{end_id, diagnostic_address, note_message, planned_message, summary_message, summary_words};

use crate::objects::change_object::put_change;
use crate::objects::changes_object::put_changes;
use crate::objects::diagnostic_object::put_diagnostic;
use crate::objects::hook_object::put_hook;
use crate::objects::provisioner_object::put_provisioner;
use crate::severity_words::SeverityWords;
use crate::timestamp::UtcTimestamp;
use apply_events::{Counts, What};
use apply_model::{Change, ChangeDetails, Note, StepKind};
use apply_text::Operation;
use apply_text::parts::{
    AppliedStep, DiagTexts, Elapsed, IdSuffix, StepWords, end_message, level, phase_words,
    put_text, type_name, write_event_text,
};
use json::Writer;
use std::alloc::AllocError;

/// Writes the version message.
pub fn put_version(
    out: &mut Writer,
    scratch: &mut String,
    timestamp: &UtcTimestamp,
    version: &str,
) -> Result<(), AllocError>
    ensures { Sends result out.old out.new (data_tokens
        (message_object (codes "info") (codes "Terraform " ++ version.now) timestamp.now (version_members version.now))) }
{
    scratch.clear();
    write!(scratch, "Terraform {version}")?;
    begin_message(out, scratch, "info", timestamp)?;
    put_text(out, "terraform", version)?;
    put_text(out, "type", "version")?;
    put_text(out, "ui", "1.2")?;
    out.end_object()
}

/// Writes the message of a planned change. `word` is the planned action.
pub fn put_planned(
    out: &mut Writer,
    scratch: &mut String,
    timestamp: &UtcTimestamp,
    change: &Change,
    word: &str,
    details: &ChangeDetails,
) -> Result<(), AllocError>
    ensures { Sends result out.old out.new
        (message_tokens timestamp.now (planned_message change.now word.now details.now)) }
{
    let address = change.address();
    scratch.clear();
    write!(scratch, "{address}: Plan to {word}")?;
    begin_message(out, scratch, "info", timestamp)?;
    put_change(out, change, word, details)?;
    end_message(out, "planned_change")
}

/// Writes the message of an event of a step. `planned` is the id that the plan gives.
pub fn put_event(
    out: &mut Writer,
    scratch: &mut String,
    timestamp: &UtcTimestamp,
    step: AppliedStep<'_>,
    planned: Option<&str>,
    what: What,
) -> Result<(), AllocError>
    ensures { Sends result out.old out.new (message_tokens timestamp.now
        (message_of step.entry (option_copied planned.entry) what)) }
{
    write_text(scratch, step, planned, what)?;
    begin_message(out, scratch, level(what), timestamp)?;
    put_body(out, scratch, step, planned, what)?;
    end_message(out, type_name(what))
}

/// Writes a diagnostic of no step, without its range and its snippet.
pub fn put_note(
    out: &mut Writer,
    scratch: &mut String,
    timestamp: &UtcTimestamp,
    note: &Note,
) -> Result<(), AllocError>
    ensures { Sends result out.old out.new (message_tokens timestamp.now (note_message note.now)) }
{
    let words = SeverityWords::new(note.severity);
    let label = words.label;
    let diag = DiagTexts::new(&note.diag);
    let summary = diag.summary;
    scratch.clear();
    write!(scratch, "{label}: {summary}")?;
    begin_message(out, scratch, words.level, timestamp)?;
    put_diagnostic(out, note.address(), words.severity, diag)?;
    end_message(out, "diagnostic")
}

/// Writes the summary: the counts of completed changes and of imports.
pub fn put_summary(
    out: &mut Writer,
    scratch: &mut String,
    timestamp: &UtcTimestamp,
    operation: Operation,
    counts: &Counts,
    imported: u64,
) -> Result<(), AllocError>
    ensures { Sends result out.old out.new
        (message_tokens timestamp.now (summary_message operation counts.now imported)) }
{
    write_totals(scratch, operation, counts, imported)?;
    begin_message(out, scratch, "info", timestamp)?;
    put_changes(out, operation, counts, imported)?;
    end_message(out, "change_summary")
}

/// Replaces `scratch` by the text of the summary.
fn write_totals(
    scratch: &mut String,
    operation: Operation,
    counts: &Counts,
    imported: u64,
) -> Result<(), AllocError>
    ensures { OnOk result
        (string_bytes scratch.new ≡ summary_words operation counts.now imported) }
{
    let added = counts.added;
    let changed = counts.changed;
    let removed = counts.removed;
    scratch.clear();
    match operation {
        Operation::Apply if imported == 0 => write!(
            scratch,
            "Apply complete! Resources: {added} added, {changed} changed, {removed} destroyed."
        ),
        Operation::Apply => write!(
            scratch,
            "Apply complete! Resources: {imported} imported, {added} added, {changed} changed, {removed} destroyed."
        ),
        Operation::Destroy => write!(scratch, "Destroy complete! Resources: {removed} destroyed."),
    }
}

/// Starts a message, and writes the members that every message has. `scratch` holds the text of the
/// message, and is overwritten.
pub fn begin_message(
    out: &mut Writer,
    scratch: &mut String,
    level: &str,
    timestamp: &UtcTimestamp,
) -> Result<(), AllocError>
    ensures { Sends result out.old out.new (head_tokens level.now (string_bytes scratch.old) timestamp.now) }
{
    out.begin_object()?;
    put_text(out, "@level", level)?;
    put_text(out, "@message", scratch.as_str())?;
    put_text(out, "@module", "terraform.ui")?;
    scratch.clear();
    write!(scratch, "{timestamp}")?;
    put_text(out, "@timestamp", scratch.as_str())
}

/// Replaces `scratch` by the text of an event's message.
fn write_text(
    scratch: &mut String,
    step: AppliedStep<'_>,
    planned: Option<&str>,
    what: What,
) -> Result<(), AllocError>
    ensures { OnOk result (string_bytes scratch.new
        ≡ (message_of step.entry (option_copied planned.entry) what).text) }
{
    if let What::Complete(seconds) = what {
        write_complete_text(scratch, step, planned, seconds)
    } else {
        write_event_text(scratch, step, what)
    }
}

/// Replaces `scratch` by the text of a completion.
fn write_complete_text(
    scratch: &mut String,
    step: AppliedStep<'_>,
    planned: Option<&str>,
    seconds: u32,
) -> Result<(), AllocError>
    ensures { OnOk result (string_bytes scratch.new
        ≡ (message_of step.entry (option_copied planned.entry) (What.Complete seconds)).text) }
{
    let address = step.change.address();
    let noun = StepWords::new(step.kind).noun;
    let elapsed = Elapsed { seconds };
    let note = IdSuffix {
        id: told_id(step, planned),
    };
    scratch.clear();
    write!(scratch, "{address}: {noun} complete after {elapsed}{note}")
}

/// The id that a completion shows: the provider's, else the planned one. `None` for a delete.
pub fn told_id<'a>(step: AppliedStep<'a>, planned: Option<&'a str>) -> Option<&'a str>
    ensures { option_copied result
        ≡ end_id step.entry.kind (outcome_view step.entry).result (option_copied planned.entry) }
{
    if step.kind == StepKind::Delete {
        return None;
    }
    match step.end_id() {
        Some(id) => Some(id),
        None => planned,
    }
}

/// Whether a provisioner of the step failed.
fn has_failed_provisioner(step: AppliedStep<'_>) -> bool
    ensures { result ≡ is_some (first_diag (outcome_view step.entry).provisioners) }
{
    match step.outcome {
        Some(outcome) => outcome.provisioners.first_failure().is_some(),
        None => false,
    }
}

/// The address of a provider's diagnostic. `None` at a delete, unless a provisioner failed.
fn address_of<'a>(step: AppliedStep<'a>) -> Option<&'a str>
    ensures { option_copied result
        ≡ diagnostic_address step.entry.change.now step.entry.kind (outcome_view step.entry) }
{
    if step.kind == StepKind::Delete && !has_failed_provisioner(step) {
        None
    } else {
        Some(step.change.address())
    }
}

/// Writes the member that only messages of this type have: `hook` or `diagnostic`.
fn put_body(
    out: &mut Writer,
    scratch: &mut String,
    step: AppliedStep<'_>,
    planned: Option<&str>,
    what: What,
) -> Result<(), AllocError>
    ensures { let message = message_of step.entry (option_copied planned.entry) what in
        Sends result out.old out.new (member_tokens message.name message.body) }
{
    let AppliedStep { change, kind, .. } = step;
    match what {
        What::Start => put_hook(out, change, kind, None, step.start_id()),
        What::Progress(seconds) => put_hook(out, change, kind, Some(seconds), None),
        What::Complete(seconds) => {
            put_hook(out, change, kind, Some(seconds), told_id(step, planned))
        }
        What::Errored(seconds) => put_hook(out, change, kind, Some(seconds), None),
        What::ErrorNote => put_diagnostic(out, address_of(step), "error", step.failure()),
        What::WarnNote => put_diagnostic(out, address_of(step), "warning", step.warning()),
        What::Halted { phase, hook } => {
            let words = phase_words(phase);
            let action = StepWords::new(kind).action;
            scratch.clear();
            write!(scratch, "Hook {hook} answered Halt {words} {action}.")?;
            let halt = DiagTexts::of_halt(scratch.as_str());
            let address = Some(change.address());
            put_diagnostic(out, address, "error", halt)
        }
        What::ProvisionStart(number)
        | What::ProvisionComplete(number)
        | What::ProvisionErrored(number) => {
            put_provisioner(out, change, step.provisioner_name(number), None)
        }
        What::ProvisionOutput { prov, line } => {
            let output = step.output(prov, line);
            put_provisioner(out, change, step.provisioner_name(prov), Some(output))
        }
    }
}
