//! Escaped texts, as characters. Each `Err` means that memory was refused.

ghost use Rattle.std.specs.Prelude.{◌≡◌, IfOk, min};
ghost use Rattle.std.specs.Str.{chars};
ghost use Rattle.term_text.specs.Columns.{columns_of};
ghost use Rattle.term_text.specs.Fitting.{without_blanks};
ghost use Rattle.term_text.specs.Fitted.{shown_characters};

use crate::columns::columns;
use crate::controls::escape_controls;
use std::alloc::{AllocError, Global};
use std::marker::Model;

/// A text with control characters escaped, so that it steers no terminal. Contracts see its
/// characters.
#[derive(Drop)]
pub struct ShownText {
    pub(crate) characters: Vec<char>,
}

impl Model for ShownText {
    ghost use Rattle.std.specs.Prelude.{ℕ, List};

    ghost Value = { List ℕ };

    ghost view = { λ text. text.characters.items };
}

impl ShownText {
    /// Escapes the bytes.
    pub fn of(alloc: Global, bytes: &[u8]) -> Result<ShownText, AllocError>
        ensures { IfOk result (λ text. text ≡ shown_characters bytes.now) }
    {
        let text = escape_controls(alloc, bytes)?;
        let characters = characters_of(alloc, text.as_str())?;
        Ok(ShownText { characters })
    }

    /// Copies characters that are escaped already.
    pub(crate) fn copied(alloc: Global, characters: &[char]) -> Result<ShownText, AllocError>
        ensures { IfOk result (λ text. text ≡ characters.now) }
    {
        Ok(ShownText {
            characters: Vec::from_slice(alloc, characters)?,
        })
    }

    /// The text without the blanks at its end.
    pub fn trimmed(mut self) -> ShownText
        ensures { result ≡ without_blanks self }
    {
        let len = without_blanks(&self.characters).len();
        self.characters.truncate(len);
        self
    }

    /// The characters of the text.
    pub fn characters(&self) -> &[char]
        ensures { result.now ≡ self.now }
    {
        self.characters.as_slice()
    }

    /// The columns of a terminal that the text takes, at most `usize::MAX`.
    pub fn columns(&self) -> usize
        ensures { result ≡ min (columns_of self.now) usize.MAX }
    {
        columns(&self.characters)
    }
}

/// Collects the characters of a text.
fn characters_of(alloc: Global, text: &str) -> Result<Vec<char>, AllocError>
    ensures { IfOk result (λ characters. characters.items ≡ chars text.now) }
{
    text.chars().collect(alloc)
}

/// Returns the characters without the blanks at their end.
pub fn without_blanks(characters: &[char]) -> &[char]
    ensures { result.now ≡ without_blanks characters.now }
{
    let mut len = characters.len();
    'back: while len > 0 && characters[len - 1] == ' ' {
        len -= 1;
    }
    &characters[..len]
}
