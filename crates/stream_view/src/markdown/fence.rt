//! The lines around a text in Markdown: the headline, the fences, and the number of lines that were
//! cut.

ghost use Rattle.std.specs.Prelude.{◌≡◌};
ghost use Rattle.stream_view.specs.Markdown.{back_bytes, fence_bytes, front_bytes, more_line};
ghost use Rattle.term_words.specs.MessageTexts.{AppendsText, HasText};

use std::alloc::Global;
use term_words::MessageText;

/// What stands before the text: the headline in bold, and the fence.
pub fn front_of(alloc: Global, headline: &[u8], fence: usize) -> MessageText
    ensures { HasText result (front_bytes headline.now fence) }
{
    let mut front = MessageText::new(alloc);
    front.text("**");
    front.bytes(headline);
    front.text("**\n\n");
    push_fence(&mut front, fence);
    front
}

/// What stands after the text: how many lines were cut, unless none was, and the fence.
pub fn back_of(alloc: Global, more: usize, fence: usize) -> MessageText
    ensures { HasText result (back_bytes more fence) }
{
    let mut back = more_line(alloc, more);
    push_fence(&mut back, fence);
    back
}

/// The line with the number of lines that were cut; empty if none was.
pub fn more_line(alloc: Global, count: usize) -> MessageText
    ensures { HasText result (more_line count) }
{
    let mut line = MessageText::new(alloc);
    if count > 0 {
        line.text("…");
        line.text(" ");
        line.more_things(count as u64, "line");
        line.text("\n");
    }
    line
}

/// Adds the line of a fence of `len` backticks.
fn push_fence(text: &mut MessageText, len: usize)
    ensures { AppendsText text.old text.new (fence_bytes len) }
{
    'backticks: for _backtick in 0..len {
        text.text("`");
    }
    text.text("\n");
}
