//! The lines of a stream in the default form.

ghost use Rattle.std.specs.Prelude.{◌≡◌, ◌<◌, ◌≤◌, [], length, slice_index_or, IfOk, OnOk};
ghost use Rattle.std.specs.List.{concat};
ghost use Rattle.apply_events.specs.Fits.{IsOfPlan, latest_second};
ghost use Rattle.apply_writer.specs.Stream.Form.{plain_form};

use crate::forms::form_lines::FormLines;
use apply_events::{Counts, Event};
use apply_model::{Plan, Script};
use apply_text::{LineBuffer, Operation, Start};
use std::alloc::{AllocError, Global};

/// Builds the lines of a stream in the default form.
#[derive(Drop)]
pub struct PlainLines<'a> {
    /// The plan whose events the stream reports.
    pub plan: &'a Plan,
    /// What the script states about the plan's steps.
    pub script: &'a Script,
    /// When the first steps start.
    pub start: Start,
    /// What the apply is for: the summary names it.
    pub operation: Operation,
    /// Room for one line, reused from line to line.
    buffer: LineBuffer,
}

impl<'a> PlainLines<'a> {
    /// Makes the lines of a plan and its script. `Err` if memory is refused.
    pub fn new(
        alloc: Global,
        plan: &'a Plan,
        script: &'a Script,
        start: Start,
        operation: Operation,
    ) -> Result<PlainLines<'a>, AllocError>
        ensures { IfOk result (λ lines. (lines.plan.now ≡ plan.now) × (lines.script.now ≡ script.now)
            × (lines.start ≡ start) × (lines.operation ≡ operation)) }
    {
        Ok(PlainLines {
            plan,
            script,
            start,
            operation,
            buffer: LineBuffer::with_room(alloc)?,
        })
    }
}

impl FormLines for PlainLines<'_> {
    ghost use Rattle.std.specs.Prelude.{◌∷◌, []};
    ghost use Rattle.apply_text.specs.Lines.{version_text};
    ghost use Rattle.apply_writer.specs.Stream.Form.{plain_form};

    ghost form = { λ lines. plain_form lines.plan.now lines.script.now lines.start lines.operation };

    ghost head_chunks = { λ lines. version_text lines.plan.now lines.start ∷ [] };

    ghost built = { λ lines. lines.buffer };

    fn plan(&self) -> &Plan {
        self.plan
    }

    fn head_chunk_count(&self) -> u32 {
        1
    }

    fn build_head_chunk(&mut self, _place: u32) -> Result<(), AllocError> {
        self.buffer.clear();
        self.buffer.push_version(self.plan, self.start)
    }

    fn build_line(&mut self, latest: u64, event: &Event) -> Result<(), AllocError> {
        self.buffer.clear();
        self.buffer
            .push_event(self.plan, self.script, self.start, latest, event)
    }

    fn build_tail(&mut self, latest: u64, counts: &Counts) -> Result<(), AllocError> {
        self.buffer.clear();
        self.buffer
            .push_summary(self.start, latest, self.operation, counts)
    }

    fn as_bytes(&self) -> &[u8] {
        self.buffer.as_bytes()
    }
}
