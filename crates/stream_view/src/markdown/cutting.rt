//! Cuts lines from the end of a text that has no room in a comment.

ghost use Rattle.std.specs.Prelude.{◌≡◌, ◌≤◌, IfOk, length};
ghost use Rattle.stream_view.specs.Markdown.{IsSmall, has_room, kept_after, kept_of};

use crate::markdown::extent::{Extent, extent_after, extent_of, fence_len, no_extent};
use crate::markdown::fence::more_line;
use std::alloc::{AllocError, Global};

/// The most bytes of the Markdown. A comment on GitHub may have 65,536 characters.
const MOST: usize = 65_000;

/// The asterisks and line feeds around the headline and the fences.
const SIGNS: usize = 8;

/// What is kept of a text: the longest front of whole lines for which all has room. `headline` is
/// the length of the headline. `Err` means that memory was refused.
pub fn kept_of(alloc: Global, headline: usize, inside: &[u8]) -> Result<Extent, AllocError>
    ensures { IfOk result (λ kept. kept ≡ kept_of headline inside.now) }
{
    let lines = extent_of(inside).lines;
    let mut extent = no_extent();
    let mut kept = no_extent();
    for byte in inside {
        extent = extent_after(extent, *byte);
        kept = kept_after(alloc, headline, lines, *byte, extent, kept)?;
    }
    Ok(kept)
}

/// The front of a text up to `byte`, if a line ends with the byte and all has room; else `kept`.
/// `Err` means that memory was refused.
fn kept_after(
    alloc: Global,
    headline: usize,
    lines: usize,
    byte: u8,
    extent: Extent,
    kept: Extent,
) -> Result<Extent, AllocError>
    requires { IsSmall extent }
    ensures { IfOk result (λ front. front ≡ kept_after headline lines byte extent kept) }
{
    if byte == b'\n' && has_room(alloc, headline, lines, extent)? {
        Ok(extent)
    } else {
        Ok(kept)
    }
}

/// Whether the Markdown has room for a front with this extent of a text of so many lines. `Err`
/// means that memory was refused.
fn has_room(alloc: Global, headline: usize, lines: usize, kept: Extent) -> Result<bool, AllocError>
    requires { IsSmall kept }
    ensures { IfOk result (λ answer. answer ≡ has_room headline lines kept) }
{
    let more = more_line(alloc, lines.saturating_sub(kept.lines));
    if !more.is_whole() {
        return Err(AllocError);
    }
    let len = headline
        .saturating_add(kept.len)
        .saturating_add(fence_len(kept))
        .saturating_add(fence_len(kept))
        .saturating_add(more.as_bytes().len())
        .saturating_add(SIGNS);
    Ok(len <= MOST)
}
