//! Writes the whole Markdown.

ghost use Rattle.std.specs.Prelude.{OnOk};
ghost use Rattle.stream_view.specs.Markdown.{MarkdownWritten};

use crate::captions::heading::headline;
use crate::draw_fault::DrawFault;
use crate::markdown::inside::inside_of;
use crate::markdown::writing::write_markdown;
use crate::picture::Picture;
use crate::writing::flush;
use std::alloc::Global;
use std::io::Write;

/// Writes the picture as Markdown of at most 65,000 bytes: the heading in bold without the version
/// of Terraform, and the rest of the text, 100 columns wide, in a fence of backticks. The fence is
/// longer than any run of backticks in it. If there is no room, whole lines are cut from the end,
/// and their number stands in the last line. Memory is needed for the whole text.
///
/// `DrawFault::Memory` if memory is refused. `DrawFault::Gone` or `DrawFault::Unwritten` if a write
/// or a flush fails. After an `Err`, `out` may have the first bytes of the Markdown.
pub fn draw_markdown<W: Write>(
    alloc: Global,
    picture: &Picture<'_>,
    out: &mut W,
) -> Result<(), DrawFault>
    ensures { OnOk result (MarkdownWritten picture.now (W.contents out.old) (W.contents out.new)) }
{
    let inside = inside_of(alloc, picture)?;
    write_markdown(alloc, &headline(alloc, picture), &inside, out)?;
    flush(out)?;
    Ok(())
}
