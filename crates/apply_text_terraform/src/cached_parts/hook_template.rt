//! What the start and end lines of a step have in common. Every `Err` means that memory was
//! refused.

ghost use Rattle.std.specs.Prelude.{◌≡◌, codes, string_bytes, IfOk};
ghost use Rattle.apply_text.specs.CachedParts.{shown_step};
ghost use Rattle.apply_text_terraform.specs.HookLines as hook_lines;

use crate::cached_parts::progress_template::with_resource;
use crate::escaping::escaped_text;
use apply_model::{Change, StepKind};
use apply_text::parts::{CachedStep, LineTemplate, StepTexts, StepWords, hook_front};
use std::alloc::{AllocError, Global};
use std::marker::Model;

/// The texts that the start and end lines of a step have in common, in Terraform's form and with
/// escapes.
///
/// Contracts see the step and the fields of its change that messages show.
#[derive(Drop)]
pub struct HookTemplate {
    texts: StepTexts,
    // Memory for a text before escaping.
    raw: String,
}

impl Model for HookTemplate {
    ghost use Rattle.std.specs.Prelude.{◌≡◌};
    ghost use Rattle.apply_text.specs.CachedParts.{ShownStep};
    ghost use Rattle.apply_text_terraform.specs.HookLines.{hook_pieces};

    ghost Value = { ShownStep };

    ghost view = { λ template. template.texts.step };

    ghost invariant = { λ template. template.texts.pieces ≡ hook_pieces template.texts.step };
}

impl LineTemplate for HookTemplate {
    ghost use Rattle.apply_text_terraform.specs.HookLines.{hook_pieces};

    ghost cached = { λ template. template };

    ghost pieces = { hook_pieces };

    fn new(
        alloc: Global,
        old: Option<HookTemplate>,
        change: &Change,
        step: StepKind,
    ) -> Result<HookTemplate, AllocError>
        ensures { IfOk result (λ template. template ≡ shown_step change.now step) }
    {
        let (room, raw) = match old {
            Some(template) => (template.texts, template.raw),
            None => (StepTexts::empty(alloc), String::new(alloc)),
        };
        let (mut shown, front, middle, back) = room.into_parts();
        shown.fill(alloc, change, step)?;
        let opened = hook_front(raw, change.address())?;
        let front = escaped_text(front, opened.as_str())?;
        let whole = hook_middle(opened, change, step)?;
        let middle = escaped_text(middle, whole.as_str())?;
        let back = hook_back(back)?;
        Ok(HookTemplate {
            texts: StepTexts::new(shown, front, middle, back),
            raw: whole,
        })
    }

    fn texts(&self) -> &StepTexts {
        &self.texts
    }
}

/// Builds the middle of a line before escaping: from after the second of the timestamp to the
/// member `action`. The text replaces the content of `room`.
fn hook_middle(room: String, change: &Change, step: StepKind) -> Result<String, AllocError>
    ensures { IfOk result (λ middle. string_bytes middle ≡ hook_lines.hook_middle change.now step) }
{
    let mut middle = room;
    middle.clear();
    middle.push_str(".000000Z\",\"hook\":{")?;
    let mut middle = with_resource(middle, change)?;
    middle.push_str(",\"action\":\"")?;
    middle.push_str(StepWords::new(step).action)?;
    middle.push_str("\"")?;
    Ok(middle)
}

/// Builds the back of a line: from after the id and the seconds to the type. The text replaces the
/// content of `room`.
fn hook_back(room: String) -> Result<String, AllocError>
    ensures { IfOk result (λ back. string_bytes back ≡ codes "},\"type\":\"") }
{
    let mut back = room;
    back.clear();
    back.push_str("},\"type\":\"")?;
    Ok(back)
}
