//! Lines that are collected before they are written.

ghost use Rattle.std.specs.Prelude.{◌≡◌, ◌==◌, ◌≤◌, ◌-◌, ◌∷◌, [], All, IsTrue, OnOk, map, true};
ghost use Rattle.std.specs.Io.KnownBytes.{Appends};
ghost use Rattle.std.specs.List.{list_all};
ghost use Rattle.term_text.specs.Columns.{columns_of};
ghost use Rattle.term_text.specs.Fitted.{shown_characters};
ghost use Rattle.stream_view.specs.Lines.{text_line};
ghost use Rattle.term_words.specs.MessageTexts.{HasText};

use crate::draw_fault::DrawFault;
use crate::text::line::Line;
use crate::text::rendition::Rendition;
use crate::text::writing::write_lines;
use std::alloc::Global;
use std::io::Write;
use term_text::{ShownText, without_blanks, wrapped};
use term_words::MessageText;

/// How a text may look.
#[derive(Clone, Copy)]
pub struct Style {
    /// The greatest width of a line, in columns.
    pub width: usize,
    /// Whether the text has the sequences of colours.
    pub has_colour: bool,
}

/// Lines of the text that have not been written yet. If memory is refused, `is_whole` records that
/// until they are written, so that adding a line can't fail.
#[derive(Drop)]
pub struct LineBuffer {
    alloc: Global,
    lines: Vec<Line>,
    style: Style,
    /// Whether nothing was lost for want of memory.
    is_whole: bool,
    ghost even: { IsTrue (list_all (λ line. line.width == style.width) lines.items) },
}

impl LineBuffer {
    ghost use Rattle.stream_view.specs.Growth.{HasLines, HasMoreLines, HasPieces, lines_in};
    ghost use Rattle.stream_view.specs.Lines.{IsLine, text_bytes};

    /// A buffer without lines.
    pub fn new(alloc: Global, style: Style) -> LineBuffer
        ensures style { result.style ≡ style }
        ensures empty { result.lines.items ≡ [] }
    {
        LineBuffer {
            alloc,
            lines: Vec::new(alloc),
            style,
            is_whole: true,
        }
    }

    /// The allocator of the lines.
    pub fn alloc(&self) -> Global {
        self.alloc
    }

    /// Records that memory was refused, if `is_whole` is false.
    pub fn merge_whole(&mut self, is_whole: bool)
        ensures { self.new.style ≡ self.old.style }
    {
        self.is_whole &= is_whole;
    }

    /// An empty line of the greatest width.
    pub fn line(&self) -> Line
        ensures width { result.width ≡ self.now.style.width }
        ensures empty { result.pieces.items ≡ [] }
    {
        Line::new(self.alloc, self.style.width)
    }

    /// Adds a line.
    pub fn push(&mut self, line: Line)
        requires { line.width ≡ self.old.style.width }
        ensures style { self.new.style ≡ self.old.style }
        ensures line { self.new.is_whole ≡ true → line.is_whole ≡ true }
        ensures lines { HasLines self.old self.new (line.pieces.items ∷ []) }
    {
        self.is_whole &= line.is_whole();
        self.is_whole &= self.lines.push(line).is_ok();
    }

    /// Adds an empty line.
    pub fn push_empty(&mut self)
        ensures style { self.new.style ≡ self.old.style }
        ensures lines { HasLines self.old self.new ([] ∷ []) }
    {
        self.push(self.line());
    }

    /// Adds a line: `indent` blanks and the text, without the blanks at its end.
    pub fn push_text(&mut self, indent: usize, text: &ShownText, rendition: Option<Rendition>)
        ensures style { self.new.style ≡ self.old.style }
        ensures line { HasLines self.old self.new (text_line self.old.style.width indent rendition text.now ∷ []) }
    {
        let line = self.text_line(indent, text, rendition);
        self.push(line);
    }

    /// Adds a text, wrapped into as many lines as it needs. Each line begins with `indent` blanks.
    pub fn push_wrapped(&mut self, indent: usize, text: &ShownText, rendition: Option<Rendition>)
        ensures style { self.new.style ≡ self.old.style }
        ensures more { HasMoreLines self.old self.new }
        ensures line { columns_of text.now ≤ self.old.style.width - indent → HasLines self.old self.new (text_line self.old.style.width indent rendition text.now ∷ []) }
    {
        match wrapped(self.alloc, text, self.style.width.saturating_sub(indent)) {
            Ok(lines) => self.push_texts(indent, &lines, rendition),
            Err(_) => self.is_whole = false,
        }
    }

    /// Adds a line for each text. Each line begins with `indent` blanks.
    fn push_texts(&mut self, indent: usize, texts: &[ShownText], rendition: Option<Rendition>)
        ensures style { self.new.style ≡ self.old.style }
        ensures lines { HasLines self.old self.new (map (λ text. text_line self.old.style.width indent rendition text) texts.now) }
    {
        for text in texts {
            self.push_text(indent, text, rendition);
        }
    }

    /// Adds a message, wrapped into as many lines as it needs. Each line begins with `indent`
    /// blanks.
    pub fn push_message(
        &mut self,
        indent: usize,
        message: &MessageText,
        rendition: Option<Rendition>,
    )
        ensures style { self.new.style ≡ self.old.style }
        ensures more { HasMoreLines self.old self.new }
        ensures line { (words : _) → HasText message.now words → columns_of (shown_characters words) ≤ self.old.style.width - indent
            → HasLines self.old self.new (text_line self.old.style.width indent rendition (shown_characters words) ∷ []) }
    {
        match message.shown() {
            Ok(text) => self.push_wrapped(indent, &text, rendition),
            Err(_) => self.is_whole = false,
        }
    }

    /// Adds an empty line and a title.
    pub fn push_title(&mut self, title: &str)
        ensures { self.new.style ≡ self.old.style }
    {
        let mut text = MessageText::new(self.alloc);
        text.text(title);
        self.push_empty();
        self.push_message(0, &text, Some(Rendition::Bold));
    }

    /// Adds a message on one line, fitted to the width.
    pub fn push_fitted(&mut self, message: &MessageText)
        ensures { self.new.style ≡ self.old.style }
    {
        match message.within(self.style.width) {
            Ok(line) => self.push_text(0, &line, None),
            Err(_) => self.is_whole = false,
        }
    }

    /// Writes the lines. `DrawFault::Memory` if memory is refused, or was while lines were added.
    /// `DrawFault::Gone` or `DrawFault::Unwritten` if a write fails.
    pub fn send<W: Write>(&self, out: &mut W) -> Result<(), DrawFault>
        ensures { OnOk result ((self.now.is_whole ≡ true) × All (IsLine self.now.style.width) (lines_in self.now)
            × Appends (W.contents out.old) (W.contents out.new)
            (text_bytes self.now.style.has_colour (lines_in self.now))) }
    {
        if self.is_whole {
            write_lines(self.alloc, &self.lines, self.style.has_colour, out)
        } else {
            Err(DrawFault::Memory)
        }
    }

    /// A line: `indent` blanks and the text, without the blanks at its end. A blank text gives an
    /// empty line.
    fn text_line(&self, indent: usize, text: &ShownText, rendition: Option<Rendition>) -> Line
        ensures width { result.width ≡ self.now.style.width }
        ensures pieces { HasPieces result (text_line self.now.style.width indent rendition text.now) }
    {
        let characters = without_blanks(text.characters());
        let mut line = self.line();
        if characters.is_empty() {
            return line;
        }
        line.push_blanks(indent);
        line.push_styled(characters, rendition);
        line
    }
}
