//! The fields of a start or end message that differ from step to step.

ghost use Rattle.std.specs.Prelude.{◌≡◌, false, IfSome, IsTrue};
ghost use Rattle.std.specs.List.{list_all};
ghost use Rattle.std.specs.Option.{option_copied};
ghost use Rattle.apply_text.specs.AppliedStep.{message_of};
ghost use Rattle.apply_text.specs.HookLines.{IsPlainId, fields_message, hook_fields_view};
ghost use Rattle.apply_text.specs.HookLines as hook_lines;

use crate::applied_step::AppliedStep;
use crate::cached_parts::step_point::StepPoint;
use apply_events::What;

/// The fields of a start or end message that differ from step to step.
#[derive(Clone, Copy, Drop)]
pub struct HookFields<'a> {
    pub point: StepPoint,
    /// The seconds since the step started. `None` when the message has none.
    pub seconds: Option<u32>,
    /// The object's id, as it stands in JSON. `None` when the message has none.
    pub id: Option<&'a str>,
    /// Whether the id comes before the seconds among the members of `hook`.
    pub id_first: bool,
}

impl<'a> HookFields<'a> {
    /// The fields of an event's message, in the order of the default form. `None` when the event is
    /// no start or end, or when JSON would escape a character of the id. Such a message is written
    /// token by token.
    pub fn of_event(step: AppliedStep<'a>, what: What) -> Option<HookFields<'a>>
        ensures message { IfSome result
            (λ fields. message_of step.entry what ≡ fields_message step.entry.change.now step.entry.kind (hook_fields_view fields)) }
        ensures id { IfSome result (λ fields. IsPlainId (option_copied fields.id)) }
        ensures order { IfSome result (λ fields. fields.id_first ≡ false) }
    {
        match what {
            What::Start => HookFields::plain(StepPoint::Start, None, step.start_id()),
            What::Complete(seconds) => {
                HookFields::plain(StepPoint::Complete, Some(seconds), step.end_id())
            }
            What::Errored(seconds) => HookFields::plain(StepPoint::Errored, Some(seconds), None),
            _ => None,
        }
    }

    /// Builds the fields. `None` when JSON would escape a character of the id.
    fn plain(point: StepPoint, seconds: Option<u32>, id: Option<&'a str>) -> Option<HookFields<'a>>
        ensures fields { IfSome result (λ fields. hook_fields_view fields
            ≡ record { point = point; seconds = seconds; id = option_copied id.entry; id_first = false }) }
        ensures id { IfSome result (λ fields. IsPlainId (option_copied fields.id)) }
    {
        if !is_plain_id(id) {
            return None;
        }
        Some(HookFields {
            point,
            seconds,
            id,
            id_first: false,
        })
    }
}

/// Whether JSON writes the id without escapes. True for `None`.
fn is_plain_id(id: Option<&str>) -> bool
    ensures { IsTrue result → IsPlainId (option_copied id.entry) }
{
    match id {
        Some(id) => is_plain_text(id),
        None => true,
    }
}

/// Whether JSON writes the text without escapes.
fn is_plain_text(text: &str) -> bool
    ensures { result ≡ list_all hook_lines.is_plain text.now }
{
    text.as_bytes().iter().all(|byte| is_plain(*byte))
}

/// Whether JSON writes the byte without an escape.
fn is_plain(byte: u8) -> bool
    ensures { result ≡ hook_lines.is_plain byte }
{
    byte >= b' ' && byte != b'"' && byte != b'\\'
}
