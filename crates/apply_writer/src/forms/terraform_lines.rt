//! The lines of a stream in Terraform's own form.
//!
//! Every `Err` means that memory was refused.

ghost use Rattle.std.specs.Prelude.{◌≡◌, ◌<◌, ◌≤◌, ◌+◌, ◌++◌, [], flat_map, length, slice_get, slice_index_or, OnOk, IfOk, option_and_then};
ghost use Rattle.std.specs.List.{concat};
ghost use Rattle.std.specs.Option.{option_copied, option_map_or};
ghost use Rattle.apply_events.specs.Fits.{IsOfPlan, latest_second};
ghost use Rattle.apply_text_terraform.specs.Lines.{note_text, summary_text};
ghost use Rattle.apply_writer.specs.Stream.Terraform.{imported_in, outputs_of_apply, planned_at};
ghost use Rattle.apply_writer.specs.Forms.{IsSame};

use crate::forms::form_lines::FormLines;
use crate::forms::terraform_extras::TerraformExtras;
use apply_events::{Counts, Event};
use apply_model::{Note, Plan, Script};
use apply_text::{Operation, Start};
use apply_text_terraform::TerraformBuffer;
use std::alloc::{AllocError, Global};

/// Builds the lines of a stream in Terraform's own form.
#[derive(Drop)]
pub struct TerraformLines<'a> {
    /// The plan whose events the stream reports.
    pub plan: &'a Plan,
    /// What the script states about the plan's steps.
    pub script: &'a Script,
    /// What plan and script state beyond the steps.
    pub extras: TerraformExtras<'a>,
    /// When the first steps start.
    pub start: Start,
    /// What the apply is for: the summary names it.
    pub operation: Operation,
    /// Room for one line, reused from line to line.
    buffer: TerraformBuffer,
}

impl<'a> TerraformLines<'a> {
    /// Makes the lines of a plan, its script and the extras of both.
    pub fn new(
        alloc: Global,
        plan: &'a Plan,
        script: &'a Script,
        extras: TerraformExtras<'a>,
        start: Start,
        operation: Operation,
    ) -> Result<TerraformLines<'a>, AllocError>
        ensures { IfOk result (λ lines. (lines.plan.now ≡ plan.now) × (lines.script.now ≡ script.now)
            × (lines.extras.details.now ≡ extras.entry.details.now) × (lines.extras.notes.now ≡ extras.entry.notes.now)
            × (lines.extras.outputs.now ≡ extras.entry.outputs.now)
            × (lines.start ≡ start) × (lines.operation ≡ operation)) }
    {
        Ok(TerraformLines {
            plan,
            script,
            extras,
            start,
            operation,
            buffer: TerraformBuffer::with_room(alloc)?,
        })
    }

    /// Appends the line of the planned change with that number, if something is planned for it.
    fn push_planned(&mut self, number: u32) -> Result<(), AllocError>
        requires { number < length self.old.plan.now.changes }
        ensures ok { OnOk result (self.new.buffer ≡ self.old.buffer ++ option_map_or
            (λ change. planned_at self.old.start self.old.extras.details.now (number, change))
            (slice_get self.old.plan.now.changes number) []) }
        ensures same { IsSame self.old self.new }
    {
        match self.extras.details.get(number as usize) {
            Some(details) => {
                self.buffer
                    .push_planned(self.start, self.plan.change(number), details)
            }
            None => Ok(()),
        }
    }

    /// Appends the diagnostics that belong to no step.
    fn push_notes(&mut self, latest: u64) -> Result<(), AllocError>
        requires { latest ≤ latest_second }
        ensures ok { OnOk result (self.new.buffer
            ≡ self.old.buffer ++ flat_map (note_text self.old.start latest) self.old.extras.notes.now) }
        ensures same { IsSame self.old self.new }
    {
        push_all_notes(&mut self.buffer, self.start, latest, self.extras.notes)
    }

    /// Appends the summary, and after an apply the outputs.
    fn push_totals(&mut self, latest: u64, counts: &Counts) -> Result<(), AllocError>
        requires { latest ≤ latest_second }
        ensures ok { OnOk result (self.new.buffer ≡ self.old.buffer
            ++ (summary_text self.old.start latest self.old.operation counts.now (imported_in self.old.extras.details.now)
            ++ outputs_of_apply self.old.operation self.old.start latest self.old.extras.outputs.now)) }
        ensures same { IsSame self.old self.new }
    {
        let imported = self.extras.imported();
        self.buffer
            .push_summary(self.start, latest, self.operation, counts, imported)?;
        match self.operation {
            Operation::Apply => {
                self.buffer
                    .push_outputs(self.start, latest, self.extras.outputs)
            }
            Operation::Destroy => Ok(()),
        }
    }
}

/// Appends each of the diagnostics.
fn push_all_notes(
    buffer: &mut TerraformBuffer,
    start: Start,
    latest: u64,
    notes: &[Note],
) -> Result<(), AllocError>
    requires { latest ≤ latest_second }
    ensures { OnOk result (buffer.new ≡ buffer.old ++ flat_map (note_text start latest) notes.now) }
{
    for note in notes {
        buffer.push_note(start, latest, note)?;
    }
    Ok(())
}

impl FormLines for TerraformLines<'_> {
    ghost use Rattle.apply_writer.specs.Stream.Terraform.{terraform_head_chunks, terraform_form};

    ghost form = { λ lines. terraform_form lines.plan.now lines.script.now
        (record { details = lines.extras.details.now; notes = lines.extras.notes.now; outputs = lines.extras.outputs.now })
        lines.start lines.operation };

    ghost head_chunks = { λ lines. terraform_head_chunks lines.plan.now lines.extras.details.now lines.start };

    ghost built = { λ lines. lines.buffer };

    fn plan(&self) -> &Plan {
        self.plan
    }

    fn head_chunk_count(&self) -> u32 {
        self.plan.len() + 1
    }

    fn build_head_chunk(&mut self, place: u32) -> Result<(), AllocError> {
        self.buffer.clear();
        if place == 0 {
            self.buffer.push_version(self.plan, self.start)
        } else {
            self.push_planned(place - 1)
        }
    }

    fn build_line(&mut self, latest: u64, event: &Event) -> Result<(), AllocError> {
        self.buffer.clear();
        let planned = self.extras.planned_id(event.change);
        self.buffer
            .push_event(self.plan, self.script, self.start, latest, planned, event)
    }

    fn build_tail(&mut self, latest: u64, counts: &Counts) -> Result<(), AllocError> {
        self.buffer.clear();
        self.push_notes(latest)?;
        if self.extras.contains_error(counts) {
            Ok(())
        } else {
            self.push_totals(latest, counts)
        }
    }

    fn as_bytes(&self) -> &[u8] {
        self.buffer.as_bytes()
    }
}
