//! The members that every message has.

ghost use Rattle.std.specs.Prelude.{codes, string_bytes, ◌++◌, ◌∷◌, []};
ghost use Rattle.json.specs.Token.{end_object};
ghost use Rattle.serde_json.specs.Data.{string};
ghost use Rattle.apply_text.specs.Sending.{Sends, head_tokens, member_tokens};

use crate::display::timestamp::UtcTimestamp;
use crate::objects::member::put_text;
use json::Writer;
use std::alloc::AllocError;

/// Starts a message, and writes the members that every message has. `scratch` holds the text of the
/// message, and is overwritten.
pub fn begin_message(
    out: &mut Writer,
    scratch: &mut String,
    level: &str,
    timestamp: &UtcTimestamp,
) -> Result<(), AllocError>
    ensures { Sends result out.old out.new (head_tokens level.now (string_bytes scratch.old) timestamp.now) }
{
    out.begin_object()?;
    put_text(out, "@level", level)?;
    put_text(out, "@message", scratch.as_str())?;
    put_text(out, "@module", "terraform.ui")?;
    scratch.clear();
    write!(scratch, "{timestamp}")?;
    put_text(out, "@timestamp", scratch.as_str())
}

/// Writes the type, and ends the message.
pub fn end_message(out: &mut Writer, type_name: &str) -> Result<(), AllocError>
    ensures { Sends result out.old out.new
        (member_tokens (codes "type") (string type_name.now) ++ end_object ∷ []) }
{
    put_text(out, "type", type_name)?;
    out.end_object()
}
