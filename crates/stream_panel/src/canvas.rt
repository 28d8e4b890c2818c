//! What of a panel is drawn, and how many columns its lines have.

ghost use Rattle.std.specs.Prelude.{◌≡◌, false, min};
ghost use Rattle.term_text.specs.Columns.{columns_of};
ghost use Rattle.term_words.specs.MessageTexts.{is_whole_text};
ghost use Rattle.stream_panel.specs.Canvases.{EndsLine, IsBlank};

use std::alloc::Global;
use term_text::width_of;
use term_words::MessageText;

/// Lines of a panel while they are drawn. If memory is refused, their text records that, so that
/// drawing can't fail.
#[derive(Drop)]
pub struct Canvas {
    pub(crate) text: MessageText,
    /// How many columns each line has that is ended.
    pub(crate) widths: Vec<usize>,
    /// How many columns the line at hand has.
    pub(crate) columns: usize,
}

impl Canvas {
    /// No lines.
    pub fn new(alloc: Global) -> Canvas
        ensures { IsBlank result }
    {
        Canvas {
            text: MessageText::new(alloc),
            widths: Vec::new(alloc),
            columns: 0,
        }
    }

    /// The allocator of the lines.
    pub(crate) fn alloc(&self) -> Global {
        self.text.alloc()
    }

    /// The lines, each with a line feed.
    pub fn text(&self) -> &MessageText
        ensures { result.now ≡ self.now.text }
    {
        &self.text
    }

    /// How many columns each line has.
    pub fn into_widths(self) -> Vec<usize>
        ensures { result.items ≡ self.widths.items }
    {
        self.widths
    }

    /// Records that something is missing, as if memory had been refused.
    pub(crate) fn lose(&mut self)
        ensures { is_whole_text self.new.text ≡ false }
    {
        self.text.lose();
    }

    /// Ends the line at hand.
    pub(crate) fn end_line(&mut self)
        ensures { EndsLine self.old self.new }
    {
        self.text.text("\n");
        match self.widths.push(self.columns) {
            Ok(()) => self.columns = 0,
            Err(_) => self.text.lose(),
        }
    }
}

/// Returns the columns that characters take in a terminal, at most `usize::MAX`.
pub(crate) fn columns(characters: &[char]) -> usize
    ensures { result ≡ min (columns_of characters.now) usize.MAX }
{
    let mut columns: usize = 0;
    for character in characters {
        columns = columns.saturating_add(width_of(*character).unwrap_or(0));
    }
    columns
}
