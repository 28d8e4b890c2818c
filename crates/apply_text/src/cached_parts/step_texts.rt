//! Lines of a step, joined from three fixed texts and what differs from line to line. Every `Err`
//! means that memory was refused.

ghost use Rattle.std.specs.Prelude.{◌≡◌, ◌/◌, ◌++◌, codes, decimal, string_bytes, IfOk, IsTrue, Ok, OnOk};
ghost use Rattle.std.specs.Option.{option_copied};
ghost use Rattle.apply_text.specs.CachedParts.{shown_step, progress_line};
ghost use Rattle.apply_text.specs.Elapsed.{elapsed_of};
ghost use Rattle.apply_text.specs.HookLines.{hook_line, lead_text, point_type, seconds_words, hook_fields_view};
ghost use Rattle.apply_text.specs.HookLines.{id_text, seconds_text, seconds_and_id_text};
ghost use Rattle.apply_text.specs.Message.{id_suffix};

use crate::cached_parts::cached_date::CachedDate;
use crate::cached_parts::cached_step::CachedStep;
use crate::cached_parts::hook_fields::HookFields;
use crate::cached_parts::step_point::StepPoint;
use crate::display::elapsed::{push_elapsed, push_elapsed_if};
use crate::display::id_suffix::push_id_suffix;
use crate::display::number::push_number;
use apply_model::{Change, StepKind};
use std::alloc::{AllocError, Global};
use std::marker::Model;

/// A step, and the three texts that its lines have in common: front, middle and back. The lines are
/// either progress lines, or start and end lines.
///
/// Contracts see the texts, and the step with the shown fields of its change.
#[derive(Drop)]
pub struct StepTexts {
    step: CachedStep,
    front: String,
    middle: String,
    back: String,
}

impl Model for StepTexts {
    ghost use Rattle.std.specs.Prelude.{string_bytes};
    ghost use Rattle.apply_text.specs.CachedParts.{CachedPieces};

    ghost Value = { CachedPieces };

    ghost view = { λ texts. record {
      step = texts.step;
      pieces = record {
        front = string_bytes texts.front;
        middle = string_bytes texts.middle;
        back = string_bytes texts.back;
      };
    } };
}

impl StepTexts {
    /// Takes a step and the texts of its lines.
    ///
    /// In a progress line, `front` ends before the elapsed time in the message. `middle` runs from
    /// after the second of the timestamp to the seconds, and `back` follows the seconds.
    ///
    /// In a start or end line, `front` ends with the address in the message. `middle` runs from
    /// after the second of the timestamp to the member `action`. `back` follows the seconds and the
    /// id, and ends before the type.
    pub fn new(step: CachedStep, front: String, middle: String, back: String) -> StepTexts
        ensures step { result.step ≡ step }
        ensures front { result.pieces.front ≡ string_bytes front }
        ensures middle { result.pieces.middle ≡ string_bytes middle }
        ensures back { result.pieces.back ≡ string_bytes back }
    {
        StepTexts {
            step,
            front,
            middle,
            back,
        }
    }

    /// Like `new`, from results. One function handles all refusals, so that the callers have a
    /// single way out.
    pub fn joined(
        step: Result<CachedStep, AllocError>,
        front: Result<String, AllocError>,
        middle: Result<String, AllocError>,
        back: Result<String, AllocError>,
    ) -> Result<StepTexts, AllocError>
        ensures step { IfOk result (λ texts. step ≡ Ok texts.step) }
        ensures front { IfOk result (λ texts. (text : _) × (front ≡ Ok text) × (texts.pieces.front ≡ string_bytes text)) }
        ensures middle { IfOk result (λ texts. (text : _) × (middle ≡ Ok text) × (texts.pieces.middle ≡ string_bytes text)) }
        ensures back { IfOk result (λ texts. (text : _) × (back ≡ Ok text) × (texts.pieces.back ≡ string_bytes text)) }
    {
        Ok(StepTexts::new(step?, front?, middle?, back?))
    }

    /// No texts and no step. Takes no memory.
    pub fn empty(alloc: Global) -> StepTexts {
        StepTexts {
            step: CachedStep::empty(alloc),
            front: String::new(alloc),
            middle: String::new(alloc),
            back: String::new(alloc),
        }
    }

    /// Gives up the step and the texts, so that a new template can reuse their memory.
    pub fn into_parts(self) -> (CachedStep, String, String, String) {
        (self.step, self.front, self.middle, self.back)
    }

    /// Whether the texts are those of `step`, of a change with the same shown fields.
    pub fn is_of(&self, change: &Change, step: StepKind) -> bool
        ensures { IsTrue result → self.now.step ≡ shown_step change.now step }
    {
        self.step.is_of(change, step)
    }

    /// Replaces `line` by a progress line. `timestamp` counts seconds from the start of 1970, and
    /// lies on `date`. `seconds` counts from the start of the step.
    pub fn put_line(
        &self,
        line: &mut String,
        date: &CachedDate,
        timestamp: u64,
        seconds: u32,
    ) -> Result<(), AllocError>
        requires { date.now ≡ timestamp / 86400 }
        ensures { OnOk result (string_bytes line.new ≡ progress_line self.now.pieces timestamp seconds) }
    {
        line.clear();
        self.push_front(line, seconds)?;
        date.push_second(line, timestamp)?;
        self.push_back(line, seconds)
    }

    /// Replaces `line` by a start or end line. `timestamp` counts seconds from the start of 1970,
    /// and lies on `date`.
    pub fn put_hook(
        &self,
        line: &mut String,
        step: StepKind,
        date: &CachedDate,
        timestamp: u64,
        fields: HookFields<'_>,
    ) -> Result<(), AllocError>
        requires { date.now ≡ timestamp / 86400 }
        ensures { OnOk result
            (string_bytes line.new ≡ hook_line self.now.pieces step timestamp (hook_fields_view fields.entry)) }
    {
        line.clear();
        self.push_hook_message(line, step, fields)?;
        date.push_second(line, timestamp)?;
        line.push_str(self.middle.as_str())?;
        push_members(line, fields)?;
        self.push_type(line, fields.point)
    }

    /// Appends a start or end line up to its timestamp.
    fn push_hook_message(
        &self,
        line: &mut String,
        step: StepKind,
        fields: HookFields<'_>,
    ) -> Result<(), AllocError>
        ensures { OnOk result (string_bytes line.new ≡ string_bytes line.old ++ (self.now.pieces.front
            ++ (lead_text fields.entry.point step ++ (seconds_words fields.entry.seconds ++ (id_suffix (option_copied fields.entry.id)
            ++ codes "\",\"@module\":\"terraform.ui\",\"@timestamp\":"))))) }
    {
        line.push_str(self.front.as_str())?;
        line.push_str(fields.point.lead(step))?;
        push_elapsed_if(line, fields.seconds)?;
        push_id_suffix(line, fields.id)?;
        line.push_str("\",\"@module\":\"terraform.ui\",\"@timestamp\":")
    }

    /// Appends the end of a start or end line, from after the seconds and the id.
    fn push_type(&self, line: &mut String, point: StepPoint) -> Result<(), AllocError>
        ensures { OnOk result (string_bytes line.new
            ≡ string_bytes line.old ++ (self.now.pieces.back ++ (point_type point ++ codes "\"}\n"))) }
    {
        line.push_str(self.back.as_str())?;
        line.push_str(point.type_name())?;
        line.push_str("\"}\n")
    }

    /// Appends a progress line up to its timestamp.
    fn push_front(&self, line: &mut String, seconds: u32) -> Result<(), AllocError>
        ensures { OnOk result (string_bytes line.new ≡ string_bytes line.old
            ++ (self.now.pieces.front ++ (elapsed_of seconds ++ codes " elapsed]\",\"@module\":\"terraform.ui\",\"@timestamp\":"))) }
    {
        line.push_str(self.front.as_str())?;
        push_elapsed(line, seconds)?;
        line.push_str(" elapsed]\",\"@module\":\"terraform.ui\",\"@timestamp\":")
    }

    /// Appends the end of a progress line, from after the second of its timestamp.
    fn push_back(&self, line: &mut String, seconds: u32) -> Result<(), AllocError>
        ensures { OnOk result (string_bytes line.new ≡ string_bytes line.old
            ++ (self.now.pieces.middle ++ (decimal seconds ++ self.now.pieces.back))) }
    {
        line.push_str(self.middle.as_str())?;
        push_number(line, seconds)?;
        line.push_str(self.back.as_str())
    }
}

/// Appends the members for the seconds and the id, in the order that `fields` asks for.
fn push_members(line: &mut String, fields: HookFields<'_>) -> Result<(), AllocError>
    ensures { OnOk result (string_bytes line.new ≡ string_bytes line.old ++ seconds_and_id_text (hook_fields_view fields.entry)) }
{
    if fields.id_first {
        push_id(line, fields.id)?;
        push_seconds(line, fields.seconds)
    } else {
        push_seconds(line, fields.seconds)?;
        push_id(line, fields.id)
    }
}

/// Appends the member `elapsed_seconds`. Nothing for `None`.
fn push_seconds(line: &mut String, seconds: Option<u32>) -> Result<(), AllocError>
    ensures { OnOk result (string_bytes line.new ≡ string_bytes line.old ++ seconds_text seconds) }
{
    match seconds {
        Some(seconds) => {
            line.push_str(",\"elapsed_seconds\":")?;
            push_number(line, seconds)
        }
        None => Ok(()),
    }
}

/// Appends the members `id_key` and `id_value`. Nothing for `None`.
fn push_id(line: &mut String, id: Option<&str>) -> Result<(), AllocError>
    ensures { OnOk result
        (string_bytes line.new ≡ string_bytes line.old ++ id_text (option_copied id.entry)) }
{
    match id {
        Some(id) => {
            line.push_str(",\"id_key\":\"id\",\"id_value\":\"")?;
            line.push_str(id)?;
            line.push_str("\"")
        }
        None => Ok(()),
    }
}
