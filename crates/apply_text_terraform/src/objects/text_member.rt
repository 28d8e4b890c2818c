//! Optional members.

ghost use Rattle.std.specs.Option.{option_copied};
ghost use Rattle.apply_text_terraform.specs.Sending.{text_tokens};
ghost use Rattle.apply_text.specs.Sending.{Sends};

use apply_text::parts::put_text;
use json::Writer;
use std::alloc::AllocError;

/// Writes a member whose value is a string. Nothing for `None`.
pub fn put_text_if(out: &mut Writer, name: &str, text: Option<&str>) -> Result<(), AllocError>
    ensures { Sends result out.old out.new (text_tokens name.now (option_copied text.entry)) }
{
    match text {
        Some(text) => put_text(out, name, text),
        None => Ok(()),
    }
}
