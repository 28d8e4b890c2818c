//! Objects of a script that are read as raw JSON text.

ghost use Rattle.std.specs.Prelude.{◌≡◌, ◌<◌, ◌==◌, ℕ, Err, List, OnOk, length, string_bytes};
ghost use Rattle.apply_json.specs.Verbatim.{IsVerbatim};
ghost use Rattle.apply_json.specs.Tokens.{IsNoValue};
ghost use Rattle.apply_plan.specs.Script.Entry.{is_object_text, object_text};
ghost use Rattle.apply_plan.specs.Script.Members.{text_view};

use apply_json::{ReadFault, Reader, is_text, read_verbatim};
use std::alloc::Global;

/// Reads an object or `null` into its slot, as raw JSON text.
///
/// The slot becomes `None` for another value. `Err` means that the text is not JSON, or that memory
/// was refused.
pub fn read_object_text(
    alloc: Global,
    reader: &mut Reader<'_>,
    depth: usize,
    slot: &mut Option<Option<String>>,
) -> Result<(), ReadFault>
    ensures ok { OnOk result ((text : List ℕ) × IsVerbatim depth reader.old text reader.new
        × (text_view slot.new ≡ object_text text)) }
    ensures shorter { OnOk result (length reader.new < length reader.old) }
    ensures err { result ≡ Err ReadFault.NotJson → IsNoValue depth reader.old }
{
    match read_verbatim(alloc, reader, depth) {
        Ok(text) => {
            *slot = object_text(text);
            Ok(())
        }
        Err(fault) => Err(fault),
    }
}

/// The raw text of an object; `Some(None)` for `null`. `None` means another value.
fn object_text(text: String) -> Option<Option<String>>
    ensures { text_view result ≡ object_text (string_bytes text) }
{
    if is_text(text.as_str(), "null") {
        Some(None)
    } else if is_object_text(text.as_str()) {
        Some(Some(text))
    } else {
        None
    }
}

/// Whether the raw text is that of an object.
fn is_object_text(text: &str) -> bool
    ensures { result ≡ is_object_text text.now }
{
    let bytes = text.as_bytes();
    !bytes.is_empty() && bytes[0] == b'{'
}
