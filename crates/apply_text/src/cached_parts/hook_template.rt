//! What the start and end lines of a step have in common. Every `Err` means that memory was
//! refused.

ghost use Rattle.std.specs.Prelude.{◌≡◌, string_bytes, IfOk};
ghost use Rattle.apply_text.specs.CachedParts.{shown_step};
ghost use Rattle.apply_text.specs.HookLines as hook_lines;

use crate::cached_parts::cached_step::CachedStep;
use crate::cached_parts::line_template::LineTemplate;
use crate::cached_parts::progress_template::with_resource;
use crate::cached_parts::step_texts::StepTexts;
use crate::cached_parts::unterminated::with_unterminated;
use crate::step_words::StepWords;
use apply_model::{Change, StepKind};
use std::alloc::{AllocError, Global};
use std::marker::Model;

/// The texts that the start and end lines of a step have in common, in the default form.
///
/// Contracts see the step and the fields of its change that messages show.
#[derive(Drop)]
pub struct HookTemplate {
    texts: StepTexts,
}

impl Model for HookTemplate {
    ghost use Rattle.std.specs.Prelude.{◌≡◌};
    ghost use Rattle.apply_text.specs.CachedParts.{ShownStep};
    ghost use Rattle.apply_text.specs.HookLines.{hook_pieces};

    ghost Value = { ShownStep };

    ghost view = { λ template. template.texts.step };

    ghost invariant = { λ template. template.texts.pieces ≡ hook_pieces template.texts.step };
}

impl LineTemplate for HookTemplate {
    ghost use Rattle.apply_text.specs.HookLines.{hook_pieces};

    ghost cached = { λ template. template };

    ghost pieces = { hook_pieces };

    fn new(
        alloc: Global,
        old: Option<HookTemplate>,
        change: &Change,
        step: StepKind,
    ) -> Result<HookTemplate, AllocError>
        ensures { IfOk result (λ template. template ≡ shown_step change.now step) }
    {
        let room = match old {
            Some(template) => template.texts,
            None => StepTexts::empty(alloc),
        };
        let (mut shown, front, middle, back) = room.into_parts();
        shown.fill(alloc, change, step)?;
        let front = hook_front(front, change.address())?;
        let middle = hook_middle(middle, step)?;
        let back = hook_back(back, change)?;
        Ok(HookTemplate {
            texts: StepTexts::new(shown, front, middle, back),
        })
    }

    fn texts(&self) -> &StepTexts {
        &self.texts
    }
}

/// Builds the front of a line, up to and with the address in its message. All forms share it,
/// before escaping. The text replaces the content of `room`.
pub fn hook_front(room: String, address: &str) -> Result<String, AllocError>
    ensures { IfOk result (λ front. string_bytes front ≡ hook_lines.hook_front address.now) }
{
    let mut front = room;
    front.clear();
    front.push_str("{\"@level\":\"info\",\"@message\":")?;
    with_unterminated(front, address)
}

/// Builds the middle of a line: from after the second of the timestamp to the member `action`. The
/// text replaces the content of `room`.
fn hook_middle(room: String, step: StepKind) -> Result<String, AllocError>
    ensures { IfOk result (λ middle. string_bytes middle ≡ hook_lines.hook_middle step) }
{
    let mut middle = room;
    middle.clear();
    middle.push_str("Z\",\"hook\":{\"action\":\"")?;
    middle.push_str(StepWords::new(step).action)?;
    middle.push_str("\"")?;
    Ok(middle)
}

/// Builds the back of a line: from after the seconds and the id to the type. The text replaces the
/// content of `room`.
fn hook_back(room: String, change: &Change) -> Result<String, AllocError>
    ensures { IfOk result (λ back. string_bytes back ≡ hook_lines.hook_back change.now) }
{
    let mut back = room;
    back.clear();
    back.push_str(",")?;
    let mut back = with_resource(back, change)?;
    back.push_str("},\"type\":\"")?;
    Ok(back)
}
