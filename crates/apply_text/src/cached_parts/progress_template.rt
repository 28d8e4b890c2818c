//! What the progress lines of a step have in common. Every `Err` means that memory was refused.

ghost use Rattle.std.specs.Prelude.{◌≡◌, ◌++◌, codes, string_bytes, IfOk};
ghost use Rattle.serde_json.specs.Written.{compact_text};
ghost use Rattle.apply_text.specs.CachedParts.{back_text, front_text, shown_step, middle_text};
ghost use Rattle.apply_text.specs.Objects.{resource_object};

use crate::cached_parts::cached_step::CachedStep;
use crate::cached_parts::line_template::LineTemplate;
use crate::cached_parts::step_texts::StepTexts;
use crate::cached_parts::unterminated::unterminated;
use crate::objects::resource_object::put_resource;
use crate::step_words::StepWords;
use apply_model::{Change, StepKind};
use json::Writer;
use std::alloc::{AllocError, Global};
use std::marker::Model;

// More bytes than most resources need.
const RESOURCE_LEN: usize = 512;

/// The texts that the progress lines of a step have in common, in the default form.
///
/// Contracts see the step and the fields of its change that messages show.
#[derive(Drop)]
pub struct ProgressTemplate {
    texts: StepTexts,
}

impl Model for ProgressTemplate {
    ghost use Rattle.std.specs.Prelude.{◌≡◌};
    ghost use Rattle.apply_text.specs.CachedParts.{ShownStep, line_pieces};

    ghost Value = { ShownStep };

    ghost view = { λ template. template.texts.step };

    ghost invariant = { λ template. template.texts.pieces ≡ line_pieces template.texts.step };
}

impl LineTemplate for ProgressTemplate {
    ghost use Rattle.apply_text.specs.CachedParts.{line_pieces};

    ghost cached = { λ template. template };

    ghost pieces = { line_pieces };

    fn new(
        alloc: Global,
        _old: Option<ProgressTemplate>,
        change: &Change,
        step: StepKind,
    ) -> Result<ProgressTemplate, AllocError>
        ensures { IfOk result (λ template. template ≡ shown_step change.now step) }
    {
        let texts = StepTexts::joined(
            CachedStep::new(alloc, change, step),
            progress_front(alloc, change.address(), step),
            middle_of(alloc, step),
            back_of(alloc, change),
        )?;
        Ok(ProgressTemplate { texts })
    }

    fn texts(&self) -> &StepTexts {
        &self.texts
    }
}

/// Builds the front of a progress line, up to the elapsed time in its message. All forms share it,
/// before escaping.
pub fn progress_front(alloc: Global, address: &str, step: StepKind) -> Result<String, AllocError>
    ensures { IfOk result (λ front. string_bytes front ≡ front_text address.now step) }
{
    let word = StepWords::new(step).still;
    let text = format!(in alloc; "{address}: Still {word}... [")?;
    let open = unterminated(alloc, text.as_str())?;
    let mut front = String::from_str(alloc, "{\"@level\":\"info\",\"@message\":")?;
    front.push_str(open.as_str())?;
    Ok(front)
}

/// Builds the middle of a progress line: from after the second of the timestamp to the seconds.
fn middle_of(alloc: Global, step: StepKind) -> Result<String, AllocError>
    ensures { IfOk result (λ middle. string_bytes middle ≡ middle_text step) }
{
    let action = StepWords::new(step).action;
    format!(in alloc; "Z\",\"hook\":{{\"action\":\"{action}\",\"elapsed_seconds\":")
}

/// Builds the back of a progress line: all that follows the seconds.
fn back_of(alloc: Global, change: &Change) -> Result<String, AllocError>
    ensures { IfOk result (λ back. string_bytes back ≡ back_text change.now) }
{
    let resource = resource_of(alloc, change)?;
    let resource = resource.as_str();
    format!(in alloc; ",{resource}}},\"type\":\"apply_progress\"}}\n")
}

/// Builds the member `resource`.
fn resource_of(alloc: Global, change: &Change) -> Result<String, AllocError>
    ensures { IfOk result (λ resource. string_bytes resource
        ≡ codes "\"resource\":" ++ compact_text (resource_object change.now)) }
{
    with_resource(String::with_capacity(alloc, RESOURCE_LEN)?, change)
}

/// Appends the member `resource` to `text`.
pub fn with_resource(text: String, change: &Change) -> Result<String, AllocError>
    ensures { IfOk result (λ whole. string_bytes whole
        ≡ string_bytes text ++ (codes "\"resource\":" ++ compact_text (resource_object change.now))) }
{
    let mut out = Writer::new(text.into_bytes());
    put_resource(&mut out, change)?;
    Ok(String::from_utf8(out.into_inner()).unwrap())
}
