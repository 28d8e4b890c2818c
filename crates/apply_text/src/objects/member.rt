//! Members of JSON objects.

ghost use Rattle.serde_json.specs.Data.{number, string, unsigned};
ghost use Rattle.apply_text.specs.Sending.{Sends, member_tokens};

use json::Writer;
use std::alloc::AllocError;

/// Writes a member whose value is a string.
pub fn put_text(out: &mut Writer, name: &str, text: &str) -> Result<(), AllocError>
    ensures { Sends result out.old out.new (member_tokens name.now (string text.now)) }
{
    out.key(name)?;
    out.string(text)
}

/// Writes a member whose value is a number.
pub fn put_number(out: &mut Writer, name: &str, value: u64) -> Result<(), AllocError>
    ensures { Sends result out.old out.new (member_tokens name.now (number (unsigned value))) }
{
    out.key(name)?;
    out.u64(value)
}
