//! A buffer for the lines of a stream in the default form. Every `Err` means that memory was
//! refused.

ghost use Rattle.std.specs.Prelude.{◌≡◌, ◌≤◌, ◌+◌, ◌∷◌, ◌++◌, [], false, length, take, string_bytes, IfOk, IsOk, OnOk, OnErr};
ghost use Rattle.std.specs.Option.{option_copied};
ghost use Rattle.std.specs.Str.{IsUtf8};
ghost use Rattle.json.specs.Print.{print};
ghost use Rattle.apply_events.specs.Fits.{HasStep};
ghost use Rattle.apply_text.specs.Start.{latest_clock};
ghost use Rattle.apply_text.specs.AppliedStep.{message_of};
ghost use Rattle.apply_text.specs.HookLines.{IsPlainId, fields_message, hook_fields_view};
ghost use Rattle.apply_text.specs.Lines.{event_text, message_line, summary_text, version_text};
ghost use Rattle.apply_text.specs.Message.{progress_message};

use crate::applied_step::AppliedStep;
use crate::cached_parts::hook_fields::HookFields;
use crate::cached_parts::hook_template::HookTemplate;
use crate::cached_parts::line_templates::LineTemplates;
use crate::cached_parts::progress_template::ProgressTemplate;
use crate::display::timestamp::UtcTimestamp;
use crate::messages::{put_event, put_summary, put_version};
use crate::operation::Operation;
use crate::start::Start;
use apply_events::{Counts, Event, What};
use apply_model::{Change, Plan, Script, StepKind};
use json::Writer;
use std::alloc::{AllocError, Global};
use std::marker::Model;
use std::mem::replace;

/// Lines up to this length need no further growth.
const LINE_LEN: usize = 1_024;

/// The seconds after which a step first reports progress. Later progress lines come from templates.
const FIRST_PROGRESS: u32 = 10;

/// Texts up to this length need no further growth.
const TEXT_LEN: usize = 256;

/// Lines of a stream, one after another. `clear` leaves the memory in place, so that later lines
/// need no growth. Only a step that is new to the cache may take more.
///
/// Contracts see the bytes of the lines.
#[derive(Drop)]
pub struct LineBuffer {
    alloc: Global,
    bytes: Vec<u8>,
    // Texts of a message, one at a time, or a whole line from a template.
    scratch: String,
    // Templates of progress lines.
    progress: LineTemplates<ProgressTemplate>,
    // Templates of start and end lines.
    hooks: LineTemplates<HookTemplate>,
}

impl Model for LineBuffer {
    ghost use Rattle.std.specs.Prelude.{ℕ, List};
    ghost use Rattle.std.specs.Str.{IsUtf8};

    ghost Value = { List ℕ };

    ghost view = { λ buffer. buffer.bytes.items };

    ghost invariant = { λ buffer. IsUtf8 buffer.bytes.items };
}

impl LineBuffer {
    /// No lines. Takes no memory until the first line.
    pub fn new(alloc: Global) -> LineBuffer
        ensures { result ≡ [] }
    {
        LineBuffer {
            alloc,
            bytes: Vec::new(alloc),
            scratch: String::new(alloc),
            progress: LineTemplates::new(alloc),
            hooks: LineTemplates::new(alloc),
        }
    }

    /// No lines, and memory for one line of up to 1,024 bytes with texts of up to 256 bytes. Only
    /// the templates take more, until each slot has been used.
    pub fn with_room(alloc: Global) -> Result<LineBuffer, AllocError>
        ensures { IfOk result (λ buffer. buffer ≡ []) }
    {
        Ok(LineBuffer {
            alloc,
            bytes: Vec::with_capacity(alloc, LINE_LEN)?,
            scratch: String::with_capacity(alloc, TEXT_LEN)?,
            progress: LineTemplates::new(alloc),
            hooks: LineTemplates::new(alloc),
        })
    }

    /// The lines.
    pub fn as_bytes(&self) -> &[u8]
        ensures { result.now ≡ self.now }
    {
        self.bytes.as_slice()
    }

    /// The lines as a string.
    pub fn into_string(self) -> String
        ensures { string_bytes result ≡ self }
    {
        String::from_utf8(self.bytes).unwrap()
    }

    /// Drops the lines, and leaves their memory in place.
    pub fn clear(&mut self)
        ensures { self.new ≡ [] }
    {
        self.bytes.clear();
    }

    /// Appends the first line of a stream (Machine-Readable UI, "Version Message"). It gives the
    /// plan's Terraform version, and its timestamp is `start`.
    ///
    /// After an `Err` the lines are unchanged.
    pub fn push_version(&mut self, plan: &Plan, start: Start) -> Result<(), AllocError>
        ensures ok { OnOk result (self.new ≡ self.old ++ version_text plan.now start) }
        ensures err { OnErr result (self.new ≡ self.old) }
    {
        let timestamp = UtcTimestamp::new(start, 0);
        let before = self.bytes.len();
        let mut out = self.begin_line();
        let written = put_version(&mut out, &mut self.scratch, &timestamp, plan.version());
        self.end_line(out, before, written)
    }

    /// Appends the line of an event. Its timestamp is `clock` seconds after `start`, where `clock`
    /// is the greatest time of an event so far.
    ///
    /// After an `Err` the lines are unchanged.
    pub fn push_event(
        &mut self,
        plan: &Plan,
        script: &Script,
        start: Start,
        clock: u64,
        event: &Event,
    ) -> Result<(), AllocError>
        requires has_step { HasStep plan.now event.now.change event.now.step }
        requires in_time { clock ≤ latest_clock }
        ensures ok { OnOk result
            (self.new ≡ self.old ++ event_text plan.now script.now start clock event.now) }
        ensures err { OnErr result (self.new ≡ self.old) }
    {
        let change = plan.change(event.change);
        let step = AppliedStep {
            change,
            kind: change.steps()[event.step as usize],
            outcome: script.outcome(event.change, event.step),
        };
        self.push_step(start, clock, event.change, step, event.what)
    }

    /// Appends the last line of a stream: the counts of completed changes (Machine-Readable UI,
    /// "Change Summary"). Its timestamp is `clock` seconds after `start`.
    ///
    /// After an `Err` the lines are unchanged.
    pub fn push_summary(
        &mut self,
        start: Start,
        clock: u64,
        operation: Operation,
        counts: &Counts,
    ) -> Result<(), AllocError>
        requires in_time { clock ≤ latest_clock }
        ensures ok { OnOk result
            (self.new ≡ self.old ++ summary_text start clock operation counts.now) }
        ensures err { OnErr result (self.new ≡ self.old) }
    {
        let timestamp = UtcTimestamp::new(start, clock);
        let before = self.bytes.len();
        let mut out = self.begin_line();
        let written = put_summary(&mut out, &mut self.scratch, &timestamp, operation, counts);
        self.end_line(out, before, written)
    }

    /// Appends the line of an event of a step of change `number`. Starts, ends and all but the
    /// first progress line come from templates.
    fn push_step(
        &mut self,
        start: Start,
        clock: u64,
        number: u32,
        step: AppliedStep<'_>,
        what: What,
    ) -> Result<(), AllocError>
        requires { clock ≤ latest_clock }
        ensures ok { OnOk result
            (self.new ≡ self.old ++ message_line (start + clock) (message_of step.entry what)) }
        ensures err { OnErr result (self.new ≡ self.old) }
    {
        if let What::Progress(seconds) = what {
            if seconds > FIRST_PROGRESS {
                return self.push_progress(start, clock, number, step.change, step.kind, seconds);
            }
        }
        if let Some(fields) = HookFields::of_event(step, what) {
            return self.push_hook(start, clock, number, step.change, step.kind, fields);
        }
        let timestamp = UtcTimestamp::new(start, clock);
        let before = self.bytes.len();
        let mut out = self.begin_line();
        let written = put_event(&mut out, &mut self.scratch, &timestamp, step, what);
        self.end_line(out, before, written)
    }

    /// Appends a progress line from its template.
    fn push_progress(
        &mut self,
        start: Start,
        clock: u64,
        number: u32,
        change: &Change,
        step: StepKind,
        seconds: u32,
    ) -> Result<(), AllocError>
        requires { clock ≤ latest_clock }
        ensures ok { OnOk result (self.new
            ≡ self.old ++ message_line (start + clock) (progress_message change.now step seconds)) }
        ensures err { OnErr result (self.new ≡ self.old) }
    {
        let timestamp = start.seconds() + clock;
        self.progress.put_line(&mut self.scratch, change, step, number, timestamp, seconds)?;
        self.bytes
            .extend_from_slice(self.scratch.as_str().as_bytes())
    }

    /// Appends a start or end line from its template.
    fn push_hook(
        &mut self,
        start: Start,
        clock: u64,
        number: u32,
        change: &Change,
        step: StepKind,
        fields: HookFields<'_>,
    ) -> Result<(), AllocError>
        requires in_time { clock ≤ latest_clock }
        requires id { IsPlainId (option_copied fields.id) }
        requires order { fields.id_first ≡ false }
        ensures ok { OnOk result (self.new ≡ self.old
            ++ message_line (start + clock) (fields_message change.now step (hook_fields_view fields.entry))) }
        ensures err { OnErr result (self.new ≡ self.old) }
    {
        let timestamp = start.seconds() + clock;
        self.hooks
            .put_hook(&mut self.scratch, change, step, number, timestamp, fields)?;
        self.bytes
            .extend_from_slice(self.scratch.as_str().as_bytes())
    }

    /// Starts a line after the others. The writer holds all lines until `end_line` takes them back.
    fn begin_line(&mut self) -> Writer
        ensures before { result.before ≡ self.old }
        ensures tokens { result.tokens ≡ [] }
        ensures utf8 { IsUtf8 result.before }
    {
        Writer::new(replace(&mut self.bytes, Vec::new(self.alloc)))
    }

    /// Takes the lines back. Drops the new line when a part of it was not written.
    fn end_line(
        &mut self,
        out: Writer,
        before: usize,
        written: Result<(), AllocError>,
    ) -> Result<(), AllocError>
        requires len { before ≡ length out.before }
        requires utf8 { IsUtf8 out.before }
        ensures ok { OnOk result (IsOk written × (self.new ≡ out.before ++ (print out.tokens ++ 10 ∷ []))) }
        ensures err { OnErr result (self.new ≡ out.before) }
    {
        self.bytes = out.into_inner();
        match written {
            Ok(()) => self.push_line_feed(before),
            Err(refused) => {
                self.bytes.truncate(before);
                Err(refused)
            }
        }
    }

    /// Appends a line feed. When memory is refused, drops all from `begin` on.
    fn push_line_feed(&mut self, begin: usize) -> Result<(), AllocError>
        requires { IsUtf8 (take begin self.old) }
        ensures ok { OnOk result (self.new ≡ self.old ++ 10 ∷ []) }
        ensures err { OnErr result (self.new ≡ take begin self.old) }
    {
        match self.bytes.extend_from_slice(b"\n") {
            Ok(()) => Ok(()),
            Err(refused) => {
                self.bytes.truncate(begin);
                Err(refused)
            }
        }
    }
}
