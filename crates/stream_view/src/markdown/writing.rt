//! Writes a headline and a text as Markdown.

ghost use Rattle.std.specs.Prelude.{◌≤◌, OnOk, length};
ghost use Rattle.std.specs.Io.KnownBytes.{Appends};
ghost use Rattle.stream_view.specs.Markdown.{IsSmall, markdown_bytes, markdown_with};
ghost use Rattle.term_words.specs.MessageTexts.{HasText};

use crate::draw_fault::DrawFault;
use crate::markdown::cutting::kept_of;
use crate::markdown::extent::{Extent, extent_of, fence_len};
use crate::markdown::fence::{back_of, front_of};
use crate::writing::{write_bytes, write_message};
use std::alloc::Global;
use std::io::Write;
use term_words::MessageText;

/// Writes the headline, and the text in its fence, cut if there is no room. The errors are those of
/// `draw_markdown`.
pub fn write_markdown<W: Write>(
    alloc: Global,
    headline: &MessageText,
    inside: &[u8],
    out: &mut W,
) -> Result<(), DrawFault>
    ensures { (words : _) → HasText headline.now words
        → OnOk result (Appends (W.contents out.old) (W.contents out.new) (markdown_bytes words inside.now)) }
{
    if !headline.is_whole() {
        return Err(DrawFault::Memory);
    }
    let kept = kept_of(alloc, headline.as_bytes().len(), inside)?;
    write_kept(alloc, headline.as_bytes(), inside, kept, out)
}

/// Writes the headline, and the front of the text with this extent in its fence.
fn write_kept<W: Write>(
    alloc: Global,
    headline: &[u8],
    inside: &[u8],
    kept: Extent,
    out: &mut W,
) -> Result<(), DrawFault>
    requires small { IsSmall kept }
    requires within { kept.len ≤ length inside.now }
    ensures { OnOk result (Appends (W.contents out.old) (W.contents out.new) (markdown_with headline.now inside.now kept)) }
{
    let more = extent_of(inside).lines.saturating_sub(kept.lines);
    write_message(&front_of(alloc, headline, fence_len(kept)), out)?;
    write_bytes(&inside[..kept.len], out)?;
    write_message(&back_of(alloc, more, fence_len(kept)), out)
}
