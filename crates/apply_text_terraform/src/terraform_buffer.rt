//! A buffer for lines in Terraform's form. Every `Err` means that memory was refused.

ghost use Rattle.std.specs.Prelude.{◌≡◌, ◌≤◌, ◌+◌, ◌++◌, [], true, IfOk, IsOk, List, OnOk, OnErr, ℕ};
ghost use Rattle.std.specs.Option.{option_copied};
ghost use Rattle.json.specs.Print.{print};
ghost use Rattle.apply_events.specs.Fits.{HasStep};
ghost use Rattle.apply_text.specs.Start.{latest_clock};
ghost use Rattle.apply_text.specs.AppliedStep.{diag_view};
ghost use Rattle.apply_text.specs.HookLines.{hook_fields_view};
ghost use Rattle.apply_text_terraform.specs.AppliedStep.{line_of_event};
ghost use Rattle.apply_text_terraform.specs.CachedParts.{progress_text};
ghost use Rattle.apply_text_terraform.specs.HookLines.{IsPlainId, hook_text};
ghost use Rattle.apply_text_terraform.specs.Verbatim.{verbatim_members, diagnostic_end};
ghost use Rattle.apply_text_terraform.specs.Lines.{event_text, line_of_text, message_line, note_text, outputs_text, planned_text, summary_text, version_text};
ghost use Rattle.apply_text_terraform.specs.Message.{is_silent as is_silent_event, planned_message};

use crate::cached_parts::hook_template::HookTemplate;
use crate::cached_parts::progress_template::ProgressTemplate;
use crate::escaping::push_line;
use crate::hook_fields::hook_fields_of;
use crate::messages::{put_event, put_note, put_planned, put_summary, put_version};
use crate::outputs::push_outputs;
use crate::planned::planned_word;
use crate::timestamp::UtcTimestamp;
use crate::verbatim_members::put_verbatim_members;
use apply_events::{Counts, Event, What};
use apply_model::{Change, ChangeDetails, Note, Output, Plan, Script, StepKind};
use apply_text::parts::{AppliedStep, DiagTexts, HookFields, LineTemplates};
use apply_text::{Operation, Start};
use json::Writer;
use std::alloc::{AllocError, Global};
use std::marker::Model;
use std::mem::replace;

/// Lines up to this length need no further growth.
const LINE_LEN: usize = 1_024;

/// The seconds after which a step first reports progress. Later progress lines come from templates.
const FIRST_PROGRESS: u32 = 10;

/// Texts up to this length need no further growth.
const TEXT_LEN: usize = 256;

/// Lines of a stream in Terraform's form, one after another. `clear` leaves the memory in place, so
/// that later lines need no growth. Only a step that is new to the cache may take more. Contracts
/// see the bytes of the lines.
#[derive(Drop)]
pub struct TerraformBuffer {
    alloc: Global,
    bytes: Vec<u8>,
    // A line before escaping.
    line: Vec<u8>,
    // Texts of a message, one at a time, or a whole line from a template.
    scratch: String,
    // Templates of progress lines.
    progress: LineTemplates<ProgressTemplate>,
    // Templates of start and end lines.
    hooks: LineTemplates<HookTemplate>,
}

impl Model for TerraformBuffer {
    ghost use Rattle.std.specs.Prelude.{ℕ, List};

    ghost Value = { List ℕ };

    ghost view = { λ buffer. buffer.bytes.items };
}

impl TerraformBuffer {
    /// No lines. Takes no memory until the first line.
    pub fn new(alloc: Global) -> TerraformBuffer
        ensures { result ≡ [] }
    {
        TerraformBuffer {
            alloc,
            bytes: Vec::new(alloc),
            line: Vec::new(alloc),
            scratch: String::new(alloc),
            progress: LineTemplates::new(alloc),
            hooks: LineTemplates::new(alloc),
        }
    }

    /// No lines, and memory for one line of up to 1,024 bytes with texts of up to 256 bytes. Only
    /// the templates take more, until each slot has been used.
    pub fn with_room(alloc: Global) -> Result<TerraformBuffer, AllocError>
        ensures { IfOk result (λ buffer. buffer ≡ []) }
    {
        Ok(TerraformBuffer {
            alloc,
            bytes: Vec::with_capacity(alloc, LINE_LEN)?,
            line: Vec::with_capacity(alloc, LINE_LEN)?,
            scratch: String::with_capacity(alloc, TEXT_LEN)?,
            progress: LineTemplates::new(alloc),
            hooks: LineTemplates::new(alloc),
        })
    }

    /// The lines.
    pub fn as_bytes(&self) -> &[u8]
        ensures { result.now ≡ self.now }
    {
        self.bytes.as_slice()
    }

    /// Drops the lines, and leaves their memory in place.
    pub fn clear(&mut self)
        ensures { self.new ≡ [] }
    {
        self.bytes.clear();
    }

    /// Appends the first line of a stream (Machine-Readable UI, "Version Message"). It gives the
    /// plan's Terraform version, and its timestamp is `start`.
    ///
    /// After an `Err` the lines are unchanged.
    pub fn push_version(&mut self, plan: &Plan, start: Start) -> Result<(), AllocError>
        ensures ok { OnOk result (self.new ≡ self.old ++ version_text plan.now start) }
        ensures err { OnErr result (self.new ≡ self.old) }
    {
        let timestamp = UtcTimestamp::new(start, 0);
        let mut out = self.begin_line();
        let written = put_version(&mut out, &mut self.scratch, &timestamp, plan.version());
        self.end_line(out, written)
    }

    /// Appends the line of a planned change (Machine-Readable UI, "Planned Change"). Its timestamp
    /// is `start`. A change without steps that forgets nothing has no line.
    ///
    /// After an `Err` the lines are unchanged.
    pub fn push_planned(
        &mut self,
        start: Start,
        change: &Change,
        details: &ChangeDetails,
    ) -> Result<(), AllocError>
        ensures ok { OnOk result (self.new ≡ self.old ++ planned_text start change.now details.now) }
        ensures err { OnErr result (self.new ≡ self.old) }
    {
        match planned_word(change.steps(), details.forgets) {
            Some(word) => self.push_word(start, change, word, details),
            None => Ok(()),
        }
    }

    /// Appends the line of an event. Its timestamp is `clock` seconds after `start`, where `clock`
    /// is the greatest time of an event so far. `planned` is the id that the plan gives, if known.
    /// The end of a failed read has no line.
    ///
    /// After an `Err` the lines are unchanged.
    pub fn push_event(
        &mut self,
        plan: &Plan,
        script: &Script,
        start: Start,
        clock: u64,
        planned: Option<&str>,
        event: &Event,
    ) -> Result<(), AllocError>
        requires has_step { HasStep plan.now event.now.change event.now.step }
        requires in_time { clock ≤ latest_clock }
        ensures ok { OnOk result
            (self.new ≡ self.old ++ event_text plan.now script.now start clock (option_copied planned.entry) event.now) }
        ensures err { OnErr result (self.new ≡ self.old) }
    {
        let change = plan.change(event.change);
        let step = AppliedStep {
            change,
            kind: change.steps()[event.step as usize],
            outcome: script.outcome(event.change, event.step),
        };
        if is_silent(step.kind, event.what) {
            return Ok(());
        }
        self.push_step(start, clock, event.change, step, planned, event.what)
    }

    /// Appends a diagnostic of no step (Machine-Readable UI, "Diagnostic"). Its timestamp is
    /// `clock` seconds after `start`.
    ///
    /// After an `Err` the lines are unchanged.
    pub fn push_note(&mut self, start: Start, clock: u64, note: &Note) -> Result<(), AllocError>
        requires in_time { clock ≤ latest_clock }
        ensures ok { OnOk result (self.new ≡ self.old ++ note_text start clock note.now) }
        ensures err { OnErr result (self.new ≡ self.old) }
    {
        let timestamp = UtcTimestamp::new(start, clock);
        let mut out = self.begin_line();
        let written = put_note(&mut out, &mut self.scratch, &timestamp, note);
        self.end_diagnostic(out, written, DiagTexts::new(&note.diag))
    }

    /// Appends the summary: the counts of completed changes and of imports (Machine-Readable UI,
    /// "Change Summary"). Its timestamp is `clock` seconds after `start`.
    ///
    /// After an `Err` the lines are unchanged.
    pub fn push_summary(
        &mut self,
        start: Start,
        clock: u64,
        operation: Operation,
        counts: &Counts,
        imported: u64,
    ) -> Result<(), AllocError>
        requires in_time { clock ≤ latest_clock }
        ensures ok { OnOk result
            (self.new ≡ self.old ++ summary_text start clock operation counts.now imported) }
        ensures err { OnErr result (self.new ≡ self.old) }
    {
        let timestamp = UtcTimestamp::new(start, clock);
        let mut out = self.begin_line();
        let written = put_summary(
            &mut out,
            &mut self.scratch,
            &timestamp,
            operation,
            counts,
            imported,
        );
        self.end_line(out, written)
    }

    /// Appends the line of the outputs, in the given order (Machine-Readable UI, "Outputs"). Its
    /// timestamp is `clock` seconds after `start`.
    ///
    /// After an `Err` the lines are unchanged.
    pub fn push_outputs(
        &mut self,
        start: Start,
        clock: u64,
        outputs: &[Output],
    ) -> Result<(), AllocError>
        requires in_time { clock ≤ latest_clock }
        ensures ok { OnOk result (self.new ≡ self.old ++ outputs_text start clock outputs.now) }
        ensures err { OnErr result (self.new ≡ self.old) }
    {
        let timestamp = UtcTimestamp::new(start, clock);
        push_outputs(
            self.alloc,
            &mut self.bytes,
            &mut self.scratch,
            &timestamp,
            outputs,
        )
    }

    /// Appends the line of a planned change. `word` is the planned action.
    fn push_word(
        &mut self,
        start: Start,
        change: &Change,
        word: &str,
        details: &ChangeDetails,
    ) -> Result<(), AllocError>
        ensures ok { OnOk result
            (self.new ≡ self.old ++ message_line start (planned_message change.now word.now details.now)) }
        ensures err { OnErr result (self.new ≡ self.old) }
    {
        let timestamp = UtcTimestamp::new(start, 0);
        let mut out = self.begin_line();
        let written = put_planned(
            &mut out,
            &mut self.scratch,
            &timestamp,
            change,
            word,
            details,
        );
        self.end_line(out, written)
    }

    /// Appends the line of an event of a step of change `number`. Starts, ends and all but the
    /// first progress line come from templates.
    fn push_step(
        &mut self,
        start: Start,
        clock: u64,
        number: u32,
        step: AppliedStep<'_>,
        planned: Option<&str>,
        what: What,
    ) -> Result<(), AllocError>
        requires { clock ≤ latest_clock }
        ensures ok { OnOk result (self.new
            ≡ self.old ++ line_of_event (start + clock) step.entry (option_copied planned.entry) what) }
        ensures err { OnErr result (self.new ≡ self.old) }
    {
        if let What::Progress(seconds) = what {
            if seconds > FIRST_PROGRESS {
                return self.push_progress(start, clock, number, step.change, step.kind, seconds);
            }
        }
        if let Some(fields) = hook_fields_of(step, planned, what) {
            return self.push_hook(start, clock, number, step.change, step.kind, fields);
        }
        let timestamp = UtcTimestamp::new(start, clock);
        let mut out = self.begin_line();
        let written = put_event(&mut out, &mut self.scratch, &timestamp, step, planned, what);
        match what {
            What::ErrorNote => self.end_diagnostic(out, written, step.failure()),
            What::WarnNote => self.end_diagnostic(out, written, step.warning()),
            _ => self.end_line(out, written),
        }
    }

    /// Appends a progress line from its template.
    fn push_progress(
        &mut self,
        start: Start,
        clock: u64,
        number: u32,
        change: &Change,
        step: StepKind,
        seconds: u32,
    ) -> Result<(), AllocError>
        requires { clock ≤ latest_clock }
        ensures ok { OnOk result (self.new
            ≡ self.old ++ line_of_text (progress_text (start + clock) change.now step seconds)) }
        ensures err { OnErr result (self.new ≡ self.old) }
    {
        let timestamp = start.seconds() + clock;
        self.progress.put_line(&mut self.scratch, change, step, number, timestamp, seconds)?;
        self.bytes.extend_from_slice(self.scratch.as_bytes())
    }

    /// Appends a start or end line from its template.
    fn push_hook(
        &mut self,
        start: Start,
        clock: u64,
        number: u32,
        change: &Change,
        step: StepKind,
        fields: HookFields<'_>,
    ) -> Result<(), AllocError>
        requires in_time { clock ≤ latest_clock }
        requires id { IsPlainId (option_copied fields.id) }
        requires order { fields.id_first ≡ true }
        ensures ok { OnOk result (self.new ≡ self.old
            ++ line_of_text (hook_text (start + clock) change.now step (hook_fields_view fields.entry))) }
        ensures err { OnErr result (self.new ≡ self.old) }
    {
        let timestamp = start.seconds() + clock;
        self.hooks
            .put_hook(&mut self.scratch, change, step, number, timestamp, fields)?;
        self.bytes.extend_from_slice(self.scratch.as_bytes())
    }

    /// Starts a line. The writer holds the memory of `line` until the line ends.
    pub fn begin_line(&mut self) -> Writer
        ensures before { result.before ≡ [] }
        ensures tokens { result.tokens ≡ [] }
        ensures lines { self.new ≡ self.old }
    {
        let mut line = replace(&mut self.line, Vec::new(self.alloc));
        line.clear();
        Writer::new(line)
    }

    /// Appends the line when all of it was written, and takes its memory back.
    ///
    /// `Err` when `written` is one, or memory was refused; then the lines are unchanged.
    pub fn end_line(
        &mut self,
        out: Writer,
        written: Result<(), AllocError>,
    ) -> Result<(), AllocError>
        requires { out.before ≡ [] }
        ensures ok { OnOk result (IsOk written × (self.new ≡ self.old ++ line_of_text (print out.tokens))) }
        ensures err { OnErr result (self.new ≡ self.old) }
    {
        self.line = out.into_inner();
        match written {
            Ok(()) => push_line(&mut self.bytes, self.line.as_slice()),
            Err(refused) => Err(refused),
        }
    }

    /// Like `end_line`, for a diagnostic: adds its range and its snippet.
    fn end_diagnostic(
        &mut self,
        out: Writer,
        written: Result<(), AllocError>,
        diag: DiagTexts<'_>,
    ) -> Result<(), AllocError>
        requires { out.before ≡ [] }
        ensures ok { OnOk result (IsOk written × ((front : List ℕ) → print out.tokens ≡ front ++ diagnostic_end
            → self.new ≡ self.old ++ line_of_text (front ++ (verbatim_members (diag_view diag.entry) ++ diagnostic_end)))) }
        ensures err { OnErr result (self.new ≡ self.old) }
    {
        self.line = out.into_inner();
        match written {
            Ok(()) => {
                put_verbatim_members(&mut self.line, diag)?;
                push_line(&mut self.bytes, self.line.as_slice())
            }
            Err(refused) => Err(refused),
        }
    }
}

/// Whether the event has no line. Only the diagnostic of a failed read has one.
fn is_silent(step: StepKind, what: What) -> bool
    ensures { result ≡ is_silent_event step what }
{
    matches!((step, what), (StepKind::Read, What::Errored(_)))
}
