//! Errors and warnings, from `diagnostic`.

ghost use Rattle.std.specs.Prelude.{◌≡◌};
ghost use Rattle.stream_check.specs.SlotContents.{diagnostic_of_slots};
ghost use Rattle.stream_check.specs.MessageView.{message_view};
ghost use Rattle.stream_check.specs.Results.{mapped};

use crate::messages::members::{object_at, text_at};
use crate::messages::message::Message;
use crate::messages::path::Path;
use crate::rules::fault::Fault;
use apply_json::is_text;
use stream_message::DiagnosticSlots;

/// Returns the error or warning. An address that is no text counts as missing. `Err` where the
/// severity is missing or no text.
pub fn diagnostic_of<'a>(diagnostic: &DiagnosticSlots<'a>) -> Result<Message<'a>, Fault>
    ensures { mapped message_view result ≡ diagnostic_of_slots diagnostic.now }
{
    match object_at(Path::Severity, Path::Diagnostic, diagnostic.is).and(text_at(
        Path::Severity,
        diagnostic.severity,
    )) {
        Ok(severity) => Ok(Message::Diagnostic {
            is_error: is_text(severity, "error"),
            address: diagnostic.address(),
        }),
        Err(fault) => Err(fault),
    }
}
