//! Wraps texts over several lines.

ghost use Rattle.std.specs.Prelude.{◌≡◌, ◌≤◌, ◌<◌, ◌∷◌, [], IfOk, length};
ghost use Rattle.term_text.specs.Breaking.{without_front_blanks};
ghost use Rattle.term_text.specs.Columns.{columns_of};
ghost use Rattle.term_text.specs.Fitting.{without_blanks};

use crate::columns::columns_of;
use crate::shown_text::{ShownText, without_blanks};
use std::alloc::{AllocError, Global};

/// Breaks the text into lines of at most `limit` columns. A line ends at the last blank that fits,
/// else where it is full. There is at least one line. `Err` where memory is refused.
pub fn wrapped(alloc: Global, text: &ShownText, limit: usize) -> Result<Vec<ShownText>, AllocError>
    ensures { IfOk result (λ lines. columns_of text.now ≤ limit → lines.items ≡ without_blanks text.now ∷ []) }
{
    let mut lines = Vec::new(alloc);
    let (line, mut rest) = split_line(text.characters(), limit);
    lines.push(ShownText::copied(alloc, line)?)?;
    'lines: while !rest.is_empty() {
        let (line, more) = split_line(rest, limit);
        lines.push(ShownText::copied(alloc, line)?)?;
        rest = more;
    }
    Ok(lines)
}

/// Splits off the first line. Blanks between the line and the rest are dropped.
fn split_line(characters: &[char], limit: usize) -> (&[char], &[char])
    ensures line { columns_of characters.now ≤ limit → result.0.now ≡ without_blanks characters.now }
    ensures rest { columns_of characters.now ≤ limit → result.1.now ≡ [] }
    ensures shorter { 1 ≤ length characters.now → length result.1.now < length characters.now }
{
    let len = line_len(characters, full_len(characters, limit));
    let line = without_blanks(&characters[..len]);
    (line, without_front_blanks(&characters[len..]))
}

/// Returns how many of the first characters fit into `limit` columns, and 1 where none fits.
fn full_len(characters: &[char], limit: usize) -> usize
    ensures within { result ≤ length characters.now }
    ensures some { 1 ≤ length characters.now → 1 ≤ result }
    ensures all { columns_of characters.now ≤ limit → result ≡ length characters.now }
{
    let mut left = limit;
    for (len, character) in characters.iter().enumerate() {
        let columns = columns_of(*character);
        if columns > left {
            return len.max(1);
        }
        left -= columns;
    }
    characters.len()
}

/// Returns the length of a line with room for `full` characters: up to the last blank among them,
/// else `full`.
fn line_len(characters: &[char], full: usize) -> usize
    ensures within { result ≤ length characters.now }
    ensures some { 1 ≤ length characters.now → 1 ≤ full → 1 ≤ result }
    ensures all { length characters.now ≤ full → result ≡ length characters.now }
{
    if full >= characters.len() {
        return characters.len();
    }
    let mut len = full;
    'back: while len > 1 {
        len -= 1;
        if characters[len] == ' ' {
            return len;
        }
    }
    full
}

/// Returns the characters without the blanks at their front.
pub(crate) fn without_front_blanks(characters: &[char]) -> &[char]
    ensures value { result.now ≡ without_front_blanks characters.now }
    ensures within { length result.now ≤ length characters.now }
{
    let mut len = 0;
    'front: while len < characters.len() && characters[len] == ' ' {
        len += 1;
    }
    &characters[len..]
}
