//! The templates of the steps that had lines last. Every `Err` means that memory was refused.

ghost use Rattle.std.specs.Prelude.{◌≡◌, ◌/◌, ◌<◌, ◌≤◌, length, option_map, string_bytes, Some, IfOk, IsTrue, OnOk};
ghost use Rattle.apply_text.specs.CachedParts.{shown_step, progress_line};
ghost use Rattle.apply_text.specs.HookLines.{hook_line, hook_fields_view};
ghost use Rattle.apply_text.specs.Start.{last_second};

use crate::cached_parts::cached_date::{CachedDate, cache_date};
use crate::cached_parts::hook_fields::HookFields;
use crate::cached_parts::line_template::LineTemplate;
use crate::cached_parts::template_cache::{CACHE_LEN, TemplateCache};
use apply_model::{Change, StepKind};
use std::alloc::{AllocError, Global};

/// What is stored from line to line, in one form of a stream: the templates of up to 64 changes,
/// and the date.
#[derive(Drop)]
pub struct LineTemplates<F> {
    alloc: Global,
    template_cache: TemplateCache,
    templates: Vec<Option<F>>,
    date: Option<CachedDate>,
}

impl<F: LineTemplate> LineTemplates<F> {
    /// Stores nothing yet. Takes no memory.
    pub fn new(alloc: Global) -> LineTemplates<F> {
        LineTemplates {
            alloc,
            template_cache: TemplateCache::new(),
            templates: Vec::new(alloc),
            date: None,
        }
    }

    /// Replaces `line` by a progress line of the step. `timestamp` counts seconds from the start of
    /// 1970, and `seconds` from the start of the step. The template is stored under `number`, the
    /// number of the change.
    pub fn put_line(
        &mut self,
        line: &mut String,
        change: &Change,
        step: StepKind,
        number: u32,
        timestamp: u64,
        seconds: u32,
    ) -> Result<(), AllocError>
        requires { timestamp ≤ last_second }
        ensures { OnOk result (string_bytes line.new
            ≡ progress_line (F.pieces (shown_step change.now step)) timestamp seconds) }
    {
        let slot = self.slot_for(number)?;
        cache_date(self.alloc, &mut self.date, timestamp)?;
        let Some(date) = &self.date else {
            unreachable!()
        };
        let slot = &mut self.templates[slot];
        put_progress_line(
            self.alloc, slot, date, line, change, step, timestamp, seconds,
        )
    }

    /// Replaces `line` by a start or end line of the step. `timestamp` counts seconds from the
    /// start of 1970. The template is stored under `number`, the number of the change.
    pub fn put_hook(
        &mut self,
        line: &mut String,
        change: &Change,
        step: StepKind,
        number: u32,
        timestamp: u64,
        fields: HookFields<'_>,
    ) -> Result<(), AllocError>
        requires { timestamp ≤ last_second }
        ensures { OnOk result (string_bytes line.new
            ≡ hook_line (F.pieces (shown_step change.now step)) step timestamp (hook_fields_view fields.entry)) }
    {
        let slot = self.slot_for(number)?;
        cache_date(self.alloc, &mut self.date, timestamp)?;
        let Some(date) = &self.date else {
            unreachable!()
        };
        let slot = &mut self.templates[slot];
        put_hook_line(
            self.alloc, slot, date, line, change, step, timestamp, fields,
        )
    }

    /// The slot of change `number`. Makes all slots at the first call.
    fn slot_for(&mut self, number: u32) -> Result<usize, AllocError>
        ensures template_cache { OnOk result (64 ≤ length self.new.templates.items) }
        ensures slot { IfOk result (λ slot. slot < 64) }
    {
        while self.templates.len() < CACHE_LEN {
            self.templates.push(None)?;
        }
        Ok(self.template_cache.slot_of(number))
    }
}

/// Replaces `line` by a progress line, and stores its template in `slot`.
fn put_progress_line<F: LineTemplate>(
    alloc: Global,
    slot: &mut Option<F>,
    date: &CachedDate,
    line: &mut String,
    change: &Change,
    step: StepKind,
    timestamp: u64,
    seconds: u32,
) -> Result<(), AllocError>
    requires { date.now ≡ timestamp / 86400 }
    ensures { OnOk result (string_bytes line.new
        ≡ progress_line (F.pieces (shown_step change.now step)) timestamp seconds) }
{
    refresh_template(alloc, slot, change, step)?;
    let Some(template) = slot else { unreachable!() };
    template.texts().put_line(line, date, timestamp, seconds)
}

/// Replaces `line` by a start or end line, and stores its template in `slot`.
fn put_hook_line<F: LineTemplate>(
    alloc: Global,
    slot: &mut Option<F>,
    date: &CachedDate,
    line: &mut String,
    change: &Change,
    step: StepKind,
    timestamp: u64,
    fields: HookFields<'_>,
) -> Result<(), AllocError>
    requires { date.now ≡ timestamp / 86400 }
    ensures { OnOk result (string_bytes line.new
        ≡ hook_line (F.pieces (shown_step change.now step)) step timestamp (hook_fields_view fields.entry)) }
{
    refresh_template(alloc, slot, change, step)?;
    let Some(template) = slot else { unreachable!() };
    template
        .texts()
        .put_hook(line, step, date, timestamp, fields)
}

/// Makes `slot` hold the template of the step, unless it does already.
fn refresh_template<F: LineTemplate>(
    alloc: Global,
    slot: &mut Option<F>,
    change: &Change,
    step: StepKind,
) -> Result<(), AllocError>
    ensures { OnOk result (option_map F.cached slot.new ≡ Some (shown_step change.now step)) }
{
    if is_template_of(slot, change, step) {
        return Ok(());
    }
    let old = slot.take();
    *slot = Some(F::new(alloc, old, change, step)?);
    Ok(())
}

/// Whether `slot` holds the template of the step.
fn is_template_of<F: LineTemplate>(slot: &Option<F>, change: &Change, step: StepKind) -> bool
    ensures { IsTrue result → option_map F.cached slot.now ≡ Some (shown_step change.now step) }
{
    match slot {
        Some(template) => template.texts().is_of(change, step),
        None => false,
    }
}
