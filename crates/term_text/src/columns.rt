//! Measures the columns of characters.

ghost use Rattle.std.specs.Prelude.{◌≡◌, min};
ghost use Rattle.term_text.specs.Columns.{column_count, columns_of, width_of};

use unicode_width::UnicodeWidthChar;

/// Returns how many columns of a terminal a character takes. A character that joins the one before
/// it takes 0. A control has no width (`None`).
pub fn width_of(character: char) -> Option<usize>
    ensures { result ≡ width_of character }
{
    character.width()
}

/// Returns the columns of a character, with 0 for a control too.
pub fn columns_of(character: char) -> usize
    ensures { result ≡ column_count character }
{
    width_of(character).unwrap_or(0)
}

/// Returns the sum of the columns of the characters, at most `usize::MAX`.
pub fn columns(characters: &[char]) -> usize
    ensures { result ≡ min (columns_of characters.now) usize.MAX }
{
    let mut columns: usize = 0;
    for character in characters {
        columns = columns.saturating_add(columns_of(*character));
    }
    columns
}
