//! A line of the text.

ghost use Rattle.std.specs.Prelude.{◌≡◌, ◌≤◌, ◌++◌, ◌∷◌, [], IsTrue, Some, false, replicate};
ghost use Rattle.std.specs.List.{list_all, sum_by};
ghost use Rattle.term_text.specs.Fitting.{at_left, at_right};
ghost use Rattle.stream_view.specs.Lines.{is_no_control, line_piece_columns, with_character, with_characters, with_styled};
ghost use Rattle.stream_view.specs.declared.text.line_piece.LinePiece.TheVariants.{Begin, End};

use crate::text::line_piece::LinePiece;
use crate::text::rendition::Rendition;
use std::alloc::Global;
use term_text::{ShownText, width_of};

/// A line of the text. It is never wider than `width` and has no control character. If memory is
/// refused, `is_whole` records that until the line is written, so that adding to a line can't fail.
#[derive(Drop)]
pub struct Line {
    pieces: Vec<LinePiece>,
    columns: usize,
    width: usize,
    /// Whether nothing was lost for want of memory.
    is_whole: bool,
    ghost counted: { columns ≡ sum_by line_piece_columns pieces.items },
    ghost fits: { columns ≤ width },
    ghost no_control: { IsTrue (list_all is_no_control pieces.items) },
}

impl Line {
    ghost use Rattle.stream_view.specs.Growth.{GrewTo, HasPieces};

    /// An empty line of at most `width` columns.
    pub fn new(alloc: Global, width: usize) -> Line
        ensures width { result.width ≡ width }
        ensures empty { result.pieces.items ≡ [] }
    {
        Line {
            pieces: Vec::new(alloc),
            columns: 0,
            width,
            is_whole: true,
        }
    }

    /// The pieces of the line.
    pub fn pieces(&self) -> &[LinePiece]
        ensures { result.now ≡ self.now.pieces.items }
    {
        self.pieces.as_slice()
    }

    /// Whether nothing was lost for want of memory.
    pub fn is_whole(&self) -> bool
        ensures { result ≡ self.now.is_whole }
    {
        self.is_whole
    }

    /// Records that memory was refused.
    pub fn refuse(&mut self)
        ensures width { self.new.width ≡ self.old.width }
        ensures refused { self.new.is_whole ≡ false }
    {
        self.is_whole = false;
    }

    /// Adds a character. A control character, or one without room, is left out.
    pub fn push(&mut self, character: char)
        ensures width { self.new.width ≡ self.old.width }
        ensures pieces { GrewTo self.old self.new (with_character self.old.width self.old.pieces.items character) }
    {
        let Some(columns) = width_of(character) else {
            return;
        };
        if columns > self.width - self.columns {
            return;
        }
        match self.pieces.push(LinePiece::Character(character)) {
            Ok(()) => self.columns += columns,
            Err(_) => self.is_whole = false,
        }
    }

    /// Begins a stretch with this rendition.
    pub fn begin(&mut self, rendition: Rendition)
        ensures width { self.new.width ≡ self.old.width }
        ensures pieces { GrewTo self.old self.new (self.old.pieces.items ++ Begin rendition ∷ []) }
    {
        self.is_whole &= self.pieces.push(LinePiece::Begin(rendition)).is_ok();
    }

    /// Ends a stretch.
    pub fn end(&mut self)
        ensures width { self.new.width ≡ self.old.width }
        ensures pieces { GrewTo self.old self.new (self.old.pieces.items ++ End ∷ []) }
    {
        self.is_whole &= self.pieces.push(LinePiece::End).is_ok();
    }

    /// Adds characters.
    pub fn push_all(&mut self, characters: &[char])
        ensures width { self.new.width ≡ self.old.width }
        ensures pieces { GrewTo self.old self.new (with_characters self.old.width self.old.pieces.items characters.now) }
    {
        for character in characters {
            self.push(*character);
        }
    }

    /// Adds characters as a stretch with this rendition.
    pub fn push_rendered(&mut self, characters: &[char], rendition: Rendition)
        ensures width { self.new.width ≡ self.old.width }
        ensures pieces { GrewTo self.old self.new (with_styled self.old.width self.old.pieces.items (Some rendition) characters.now) }
    {
        self.begin(rendition);
        self.push_all(characters);
        self.end();
    }

    /// Adds characters, as a stretch if a rendition is given.
    pub fn push_styled(&mut self, characters: &[char], rendition: Option<Rendition>)
        ensures width { self.new.width ≡ self.old.width }
        ensures pieces { GrewTo self.old self.new (with_styled self.old.width self.old.pieces.items rendition characters.now) }
    {
        match rendition {
            Some(rendition) => self.push_rendered(characters, rendition),
            None => self.push_all(characters),
        }
    }

    /// Adds `count` blanks.
    pub fn push_blanks(&mut self, count: usize)
        ensures width { self.new.width ≡ self.old.width }
        ensures pieces { GrewTo self.old self.new (with_characters self.old.width self.old.pieces.items (replicate count 32)) }
    {
        'blanks: for _blank in 0..count {
            self.push(' ');
        }
    }

    /// Adds a text, and blanks after it up to `columns` columns.
    pub fn push_left(&mut self, text: &ShownText, columns: usize)
        ensures width { self.new.width ≡ self.old.width }
        ensures pieces { GrewTo self.old self.new (with_characters self.old.width self.old.pieces.items (at_left columns text.now)) }
    {
        self.push_all(text.characters());
        self.push_blanks(columns.saturating_sub(text.columns()));
    }

    /// Adds blanks and a text, `columns` columns together. A wider text gets no blanks.
    pub fn push_right(&mut self, text: &ShownText, columns: usize)
        ensures width { self.new.width ≡ self.old.width }
        ensures pieces { GrewTo self.old self.new (with_characters self.old.width self.old.pieces.items (at_right columns text.now)) }
    {
        self.push_blanks(columns.saturating_sub(text.columns()));
        self.push_all(text.characters());
    }
}
