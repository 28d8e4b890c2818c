//! What the progress lines of a step have in common. Every `Err` means that memory was refused.

ghost use Rattle.std.specs.Prelude.{◌≡◌, ◌++◌, codes, string_bytes, IfOk};
ghost use Rattle.serde_json.specs.Written.{compact_text};
ghost use Rattle.apply_text.specs.CachedParts.{front_text, shown_step};
ghost use Rattle.apply_text_terraform.specs.CachedParts.{middle_text};
ghost use Rattle.apply_text_terraform.specs.Escapes.{escaped};
ghost use Rattle.apply_text_terraform.specs.Objects.{resource_object};

use crate::escaping::escaped_text;
use crate::objects::resource_object::put_resource;
use apply_model::{Change, StepKind};
use apply_text::parts::{CachedStep, LineTemplate, StepTexts, StepWords, progress_front};
use json::Writer;
use std::alloc::{AllocError, Global};
use std::marker::Model;

// More bytes than most resources need, with their quotes escaped.
const RESOURCE_LEN: usize = 512;

/// The texts that the progress lines of a step have in common, in Terraform's form and with
/// escapes.
///
/// Contracts see the step and the fields of its change that messages show.
#[derive(Drop)]
pub struct ProgressTemplate {
    texts: StepTexts,
}

impl Model for ProgressTemplate {
    ghost use Rattle.std.specs.Prelude.{◌≡◌};
    ghost use Rattle.apply_text.specs.CachedParts.{ShownStep};
    ghost use Rattle.apply_text_terraform.specs.CachedParts.{form_pieces};

    ghost Value = { ShownStep };

    ghost view = { λ template. template.texts.step };

    ghost invariant = { λ template. template.texts.pieces ≡ form_pieces template.texts.step };
}

impl LineTemplate for ProgressTemplate {
    ghost use Rattle.apply_text_terraform.specs.CachedParts.{form_pieces};

    ghost cached = { λ template. template };

    ghost pieces = { form_pieces };

    fn new(
        alloc: Global,
        _old: Option<ProgressTemplate>,
        change: &Change,
        step: StepKind,
    ) -> Result<ProgressTemplate, AllocError>
        ensures { IfOk result (λ template. template ≡ shown_step change.now step) }
    {
        let texts = StepTexts::joined(
            CachedStep::new(alloc, change, step),
            front_of(alloc, change, step),
            middle_of(alloc, change, step),
            back_of(alloc),
        )?;
        Ok(ProgressTemplate { texts })
    }

    fn texts(&self) -> &StepTexts {
        &self.texts
    }
}

/// Builds the front of a progress line, up to the elapsed time in its message, with escapes.
fn front_of(alloc: Global, change: &Change, step: StepKind) -> Result<String, AllocError>
    ensures { IfOk result (λ front. string_bytes front ≡ escaped (front_text change.now.address step)) }
{
    let front = progress_front(alloc, change.address(), step)?;
    escaped_text(String::new(alloc), front.as_str())
}

/// Builds the back of a progress line: all that follows the seconds.
fn back_of(alloc: Global) -> Result<String, AllocError>
    ensures { IfOk result (λ back. string_bytes back ≡ codes "},\"type\":\"apply_progress\"}\n") }
{
    Ok(String::from_str(alloc, "},\"type\":\"apply_progress\"}\n")?)
}

/// Builds the middle of a progress line, from after the second of the timestamp to the seconds,
/// with escapes.
fn middle_of(alloc: Global, change: &Change, step: StepKind) -> Result<String, AllocError>
    ensures { IfOk result (λ middle. string_bytes middle ≡ escaped (middle_text change.now step)) }
{
    let middle = plain_middle(alloc, change, step)?;
    escaped_text(String::new(alloc), middle.as_str())
}

/// Builds the middle of a progress line before escaping.
fn plain_middle(alloc: Global, change: &Change, step: StepKind) -> Result<String, AllocError>
    ensures { IfOk result (λ middle. string_bytes middle ≡ middle_text change.now step) }
{
    let resource = resource_of(alloc, change)?;
    let resource = resource.as_str();
    let action = StepWords::new(step).action;
    format!(in alloc;
        ".000000Z\",\"hook\":{{{resource},\"action\":\"{action}\",\"elapsed_seconds\":"
    )
}

/// Builds the member `resource`.
fn resource_of(alloc: Global, change: &Change) -> Result<String, AllocError>
    ensures { IfOk result (λ resource. string_bytes resource
        ≡ codes "\"resource\":" ++ compact_text (resource_object change.now)) }
{
    with_resource(String::with_capacity(alloc, RESOURCE_LEN)?, change)
}

/// Appends the member `resource` to `text`.
pub fn with_resource(text: String, change: &Change) -> Result<String, AllocError>
    ensures { IfOk result (λ whole. string_bytes whole
        ≡ string_bytes text ++ (codes "\"resource\":" ++ compact_text (resource_object change.now))) }
{
    let mut out = Writer::new(text.into_bytes());
    put_resource(&mut out, change)?;
    Ok(String::from_utf8(out.into_inner()).unwrap())
}
