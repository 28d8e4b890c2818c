//! The lines of the stream of a command that plans.
//!
//! Every `Err` means that memory was refused.

ghost use Rattle.std.specs.Prelude.{◌≡◌, ◌<◌, ◌≤◌, ◌++◌, [], drop, flat_map, length, map, slice_index_or, true, IfOk, OnOk};
ghost use Rattle.apply_events.specs.Waits.Merging.{time_line};
ghost use Rattle.apply_planning.specs.PlanningWork.{planning_work};
ghost use Rattle.apply_planning.specs.Schedule.{IsScheduleOf};
ghost use Rattle.apply_planning.specs.ToCome.{to_come};
ghost use Rattle.apply_text.specs.Start.{latest_clock};
ghost use Rattle.apply_text_terraform.specs.Lines.{note_text, summary_text};
ghost use Rattle.apply_writer.specs.Stream.Terraform.{imported_in, outputs_of_apply};
ghost use Rattle.apply_command.specs.Head.{event_text, line_text};
ghost use Rattle.apply_command.specs.InTime.{is_in_time, max_took};
ghost use Rattle.apply_command.specs.Lines.{prepared_head, prepared_lines};

use crate::head_line::HeadLine;
use crate::prepared::Prepared;
use apply_events::{Counts, Event};
use apply_model::{Note, Plan};
use apply_planning::PlanningEvents;
use apply_text::{Operation, Start};
use apply_text_terraform::TerraformBuffer;
use apply_writer::{FormLines, TerraformExtras};
use std::alloc::{AllocError, Global};

/// Builds the lines of the stream of a command that plans: what it prints before its apply, and the
/// apply as that of a saved plan, which begins when the planning has ended.
#[derive(Drop)]
pub struct CommandLines<'a> {
    /// What the command prints and applies.
    pub prepared: &'a Prepared,
    /// When the planning begins.
    pub start: Start,
    /// What the apply is for: the summary names it.
    pub operation: Operation,
    /// The events of the planning whose lines were not built yet.
    events: PlanningEvents<'a>,
    /// How many of them were.
    place: u32,
    /// Room for lines, reused.
    buffer: TerraformBuffer,
    /// Room for the text of a message, reused.
    scratch: String,
    ghost left: { map (event_text start prepared.now.told.items) (to_come events)
        ≡ drop place (map (event_text start prepared.now.told.items) (time_line (planning_work prepared.now.told.items) prepared.now.lanes)) },
}

impl<'a> CommandLines<'a> {
    /// Makes the lines of what was prepared.
    pub fn new(
        alloc: Global,
        prepared: &'a Prepared,
        start: Start,
        operation: Operation,
    ) -> Result<CommandLines<'a>, AllocError>
        requires planned { IsScheduleOf prepared.now.told.items prepared.now.schedule }
        requires lanes { prepared.now.schedule.lanes ≡ prepared.now.lanes }
        ensures { IfOk result (λ lines. (lines.prepared.now ≡ prepared.now) × (lines.start ≡ start) × (lines.operation ≡ operation)) }
    {
        Ok(CommandLines {
            prepared,
            start,
            operation,
            events: prepared.schedule.events(alloc, &prepared.told)?,
            place: 0,
            buffer: TerraformBuffer::with_room(alloc)?,
            scratch: String::new(alloc),
        })
    }

    /// The line with that number before the apply. Each is asked for in turn.
    fn line_at(&mut self, number: u32) -> Result<HeadLine, AllocError>
        requires { number < length (prepared_lines self.old.prepared.now) }
        ensures text { IfOk result (λ line. line_text (prepared_head self.old.prepared.now self.old.start) line
            ≡ slice_index_or (map (line_text (prepared_head self.old.prepared.now self.old.start)) (prepared_lines self.old.prepared.now)) number []) }
        ensures in_time { IfOk result (λ line. is_in_time line ≡ true) }
        ensures same { (self.new.prepared ≡ self.old.prepared) × (self.new.start ≡ self.old.start) × (self.new.operation ≡ self.old.operation) }
    {
        if number == 0 {
            return Ok(HeadLine::Version);
        }
        let number = number - 1;
        let event_count = self.prepared.event_count;
        if number < event_count {
            return Ok(HeadLine::Planning(self.event_at(number)?));
        }
        Ok(self.prepared.plan_lines[(number - event_count) as usize])
    }

    /// The event of the planning with that number. None is kept: where it is not the next one, its
    /// memory is refused.
    fn event_at(&mut self, number: u32) -> Result<Event, AllocError>
        ensures text { IfOk result (λ event. event_text self.old.start self.old.prepared.now.told.items event
            ≡ slice_index_or (map (event_text self.old.start self.old.prepared.now.told.items)
            (time_line (planning_work self.old.prepared.now.told.items) self.old.prepared.now.lanes)) number []) }
        ensures in_time { IfOk result (λ event. event.at ≤ max_took) }
        ensures same { (self.new.prepared ≡ self.old.prepared) × (self.new.start ≡ self.old.start) × (self.new.operation ≡ self.old.operation) }
    {
        if number != self.place {
            return Err(AllocError);
        }
        match self.events.next() {
            Some(event) => {
                self.place += 1;
                Ok(event)
            }
            None => Err(AllocError),
        }
    }
}

/// Appends each of the diagnostics.
fn push_notes(
    buffer: &mut TerraformBuffer,
    start: Start,
    clock: u64,
    notes: &[Note],
) -> Result<(), AllocError>
    requires { clock ≤ latest_clock }
    ensures { OnOk result (buffer.new ≡ buffer.old ++ flat_map (note_text start clock) notes.now) }
{
    for note in notes {
        buffer.push_note(start, clock, note)?;
    }
    Ok(())
}

/// Appends the summary of an apply, and after it the outputs unless it is a destroy.
fn push_totals(
    buffer: &mut TerraformBuffer,
    start: Start,
    clock: u64,
    operation: Operation,
    counts: &Counts,
    extras: TerraformExtras<'_>,
) -> Result<(), AllocError>
    requires { clock ≤ latest_clock }
    ensures { OnOk result (buffer.new ≡ buffer.old
        ++ (summary_text start clock operation counts.now (imported_in extras.entry.details.now)
        ++ outputs_of_apply operation start clock extras.entry.outputs.now)) }
{
    let imported = extras.imported();
    buffer.push_summary(start, clock, operation, counts, imported)?;
    match operation {
        Operation::Apply => buffer.push_outputs(start, clock, extras.outputs),
        Operation::Destroy => Ok(()),
    }
}

impl FormLines for CommandLines<'_> {
    ghost use Rattle.apply_command.specs.Head.{line_text};
    ghost use Rattle.apply_command.specs.Lines.{prepared_form, prepared_head, prepared_lines};
    ghost use Rattle.std.specs.Prelude.{map};

    ghost form = { λ lines. prepared_form lines.prepared.now lines.start lines.operation };

    ghost head_chunks = { λ lines. map (line_text (prepared_head lines.prepared.now lines.start)) (prepared_lines lines.prepared.now) };

    ghost built = { λ lines. lines.buffer };

    fn plan(&self) -> &Plan {
        self.prepared.applied()
    }

    fn head_chunk_count(&self) -> u32 {
        1 + self.prepared.event_count + self.prepared.plan_lines.len() as u32
    }

    fn build_head_chunk(&mut self, place: u32) -> Result<(), AllocError> {
        let line = self.line_at(place)?;
        self.buffer.clear();
        let head = self.prepared.head(self.start);
        head.push_line(&mut self.buffer, &mut self.scratch, line)
    }

    fn build_line(&mut self, latest: u64, event: &Event) -> Result<(), AllocError> {
        self.buffer.clear();
        let extras = self.prepared.extras();
        let planned = extras.planned_id(event.change);
        let clock = self.prepared.took + latest;
        self.buffer.push_event(
            self.prepared.applied(),
            self.prepared.applied_script(),
            self.start,
            clock,
            planned,
            event,
        )
    }

    fn build_tail(&mut self, latest: u64, counts: &Counts) -> Result<(), AllocError> {
        self.buffer.clear();
        let clock = self.prepared.took + latest;
        let extras = self.prepared.extras();
        push_notes(&mut self.buffer, self.start, clock, extras.notes)?;
        if !self.prepared.applies || extras.contains_error(counts) {
            return Ok(());
        }
        push_totals(
            &mut self.buffer,
            self.start,
            clock,
            self.operation,
            counts,
            extras,
        )
    }

    fn as_bytes(&self) -> &[u8] {
        self.buffer.as_bytes()
    }
}
