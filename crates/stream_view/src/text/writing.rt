//! Writes lines of the text.

ghost use Rattle.std.specs.Prelude.{◌≡◌, ◌++◌, IfOk, OnOk, map, string_bytes, true};
ghost use Rattle.std.specs.Io.KnownBytes.{Appends};
ghost use Rattle.stream_view.specs.Lines.{line_bytes, text_bytes};

use crate::draw_fault::DrawFault;
use crate::text::line::Line;
use crate::writing::write_text;
use std::alloc::{AllocError, Global};
use std::io::Write;

/// Writes the lines. The errors are those of `write_line`.
pub fn write_lines<W: Write>(
    alloc: Global,
    lines: &[Line],
    has_colour: bool,
    out: &mut W,
) -> Result<(), DrawFault>
    ensures { OnOk result (Appends (W.contents out.old) (W.contents out.new)
        (text_bytes has_colour (map (λ line. line.pieces.items) lines.now))) }
{
    for line in lines {
        write_line(alloc, line, has_colour, out)?;
    }
    Ok(())
}

/// Writes a line and its line feed. `DrawFault::Memory` if memory is refused, or was while the line
/// was made. `DrawFault::Gone` or `DrawFault::Unwritten` if a write fails.
pub fn write_line<W: Write>(
    alloc: Global,
    line: &Line,
    has_colour: bool,
    out: &mut W,
) -> Result<(), DrawFault>
    ensures { OnOk result ((line.now.is_whole ≡ true)
        × Appends (W.contents out.old) (W.contents out.new) (line_bytes has_colour line.now.pieces.items)) }
{
    if !line.is_whole() {
        return Err(DrawFault::Memory);
    }
    let text = line_text(alloc, line, has_colour)?;
    write_text(text.as_str(), out)
}

/// The line as text, with its line feed. `Err` means that memory was refused.
fn line_text(alloc: Global, line: &Line, has_colour: bool) -> Result<String, AllocError>
    ensures { IfOk result (λ text. string_bytes text ≡ line_bytes has_colour line.now.pieces.items) }
{
    let mut text = String::new(alloc);
    for line_piece in line.pieces() {
        line_piece.push_to(&mut text, has_colour)?;
    }
    text.push_str("\n")?;
    Ok(text)
}
