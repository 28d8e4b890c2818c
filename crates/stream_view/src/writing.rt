//! Writes to the output.

ghost use Rattle.std.specs.Prelude.{OnOk};
ghost use Rattle.std.specs.Io.KnownBytes.{Appends, Keeps};
ghost use Rattle.term_words.specs.MessageTexts.{HasText};

use crate::draw_fault::DrawFault;
use std::io::Write;
use stream_tool::write_whole;
use term_words::MessageText;

/// Writes the text. `DrawFault::Gone` if the reader of the output is gone, and
/// `DrawFault::Unwritten` if the write fails otherwise. After an `Err`, `out` may have the first
/// bytes of the text.
pub fn write_text<W: Write>(text: &str, out: &mut W) -> Result<(), DrawFault>
    ensures { OnOk result (Appends (W.contents out.old) (W.contents out.new) text.now) }
{
    write_bytes(text.as_bytes(), out)
}

/// Writes the bytes. The errors are those of `write_text`.
pub fn write_bytes<W: Write>(bytes: &[u8], out: &mut W) -> Result<(), DrawFault>
    ensures { OnOk result (Appends (W.contents out.old) (W.contents out.new) bytes.now) }
{
    Ok(write_whole(out, bytes)?)
}

/// Writes the message. `DrawFault::Memory` if memory was refused while the message was made. The
/// other errors are those of `write_text`.
pub fn write_message<W: Write>(message: &MessageText, out: &mut W) -> Result<(), DrawFault>
    ensures { (words : _) → HasText message.now words → OnOk result (Appends (W.contents out.old) (W.contents out.new) words) }
{
    if !message.is_whole() {
        return Err(DrawFault::Memory);
    }
    Ok(write_whole(out, message.as_bytes())?)
}

/// Flushes the output. The errors are those of `write_text`.
pub fn flush<W: Write>(out: &mut W) -> Result<(), DrawFault>
    ensures { Keeps (W.contents out.old) (W.contents out.new) }
{
    Ok(stream_tool::flush(out)?)
}
