//! The fields of an event's message that differ from step to step.

ghost use Rattle.std.specs.Prelude.{◌≡◌, true, ℕ, IfSome, IsTrue};
ghost use Rattle.std.specs.List.{list_all};
ghost use Rattle.std.specs.Option.{option_copied};
ghost use Rattle.apply_text.specs.HookLines.{hook_fields_view};
ghost use Rattle.apply_text_terraform.specs.AppliedStep.{line_of_event};
ghost use Rattle.apply_text_terraform.specs.HookLines.{IsPlainId, hook_text};
ghost use Rattle.apply_text_terraform.specs.HookLines as hook_lines;
ghost use Rattle.apply_text_terraform.specs.Lines.{line_of_text};

use crate::messages::told_id;
use apply_events::What;
use apply_text::parts::{AppliedStep, HookFields, StepPoint};

/// The fields of an event's message, in the order of Terraform's form. `planned` is the id that the
/// plan gives. `None` when the event is no start or end, or when a character of the id needs an
/// escape. Such a message is written token by token.
pub fn hook_fields_of<'a>(
    step: AppliedStep<'a>,
    planned: Option<&'a str>,
    what: What,
) -> Option<HookFields<'a>>
    ensures line { IfSome result (λ fields. (seconds : ℕ) → line_of_event seconds step.entry (option_copied planned.entry) what
        ≡ line_of_text (hook_text seconds step.entry.change.now step.entry.kind (hook_fields_view fields))) }
    ensures id { IfSome result (λ fields. IsPlainId (option_copied fields.id)) }
    ensures order { IfSome result (λ fields. fields.id_first ≡ true) }
{
    match what {
        What::Start => plain_fields(StepPoint::Start, None, step.start_id()),
        What::Complete(seconds) => {
            plain_fields(StepPoint::Complete, Some(seconds), told_id(step, planned))
        }
        What::Errored(seconds) => plain_fields(StepPoint::Errored, Some(seconds), None),
        _ => None,
    }
}

/// Builds the fields. `None` when a character of the id needs an escape.
fn plain_fields<'a>(
    point: StepPoint,
    seconds: Option<u32>,
    id: Option<&'a str>,
) -> Option<HookFields<'a>>
    ensures fields { IfSome result (λ fields. hook_fields_view fields
        ≡ record { point = point; seconds = seconds; id = option_copied id.entry; id_first = true }) }
    ensures id { IfSome result (λ fields. IsPlainId (option_copied fields.id)) }
{
    if !is_plain_id(id) {
        return None;
    }
    Some(HookFields {
        point,
        seconds,
        id,
        id_first: true,
    })
}

/// Whether the id stands in a line without escapes. True for `None`.
fn is_plain_id(id: Option<&str>) -> bool
    ensures { IsTrue result → IsPlainId (option_copied id.entry) }
{
    match id {
        Some(id) => is_plain_text(id),
        None => true,
    }
}

/// Whether the text stands in a line without escapes.
fn is_plain_text(text: &str) -> bool
    ensures { result ≡ list_all hook_lines.is_plain text.now }
{
    text.as_bytes().iter().all(|byte| is_plain(*byte))
}

/// Whether the byte stands in a line without an escape. No byte above 127 counts, which is stricter
/// than needed.
fn is_plain(byte: u8) -> bool
    ensures { result ≡ hook_lines.is_plain byte }
{
    (byte >= b' ' && byte != b'"' && byte != b'\\')
        && (byte < 128 && !(byte == b'<' || byte == b'>' || byte == b'&' || byte == 0xE2))
}
