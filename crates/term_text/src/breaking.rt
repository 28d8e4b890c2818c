//! Breaks texts into pieces of a limited number of columns.

ghost use Rattle.std.specs.Prelude.{◌≡◌, ◌<◌, ◌≤◌, IfOk, drop, length, take};
ghost use Rattle.term_text.specs.Breaking.{behind_piece, break_place, broken, piece_len};
ghost use Rattle.term_text.specs.Columns.{columns_of};
ghost use Rattle.term_text.specs.Fitting.{without_blanks};

use crate::fitting::front_len;
use crate::shown_text::{ShownText, without_blanks};
use crate::wrapping::without_front_blanks;
use std::alloc::{AllocError, Global};

/// Breaks the text into pieces of at most `columns` columns, where each character has room.
///
/// A piece before another one ends at the last blank that fits, if that blank stands after the
/// first third of the characters that fit. Else the piece is as long as it can be. Blanks at the
/// end of a piece and before the next one are dropped. There is at least one piece. `Err` where
/// memory is refused.
pub fn broken(alloc: Global, text: &ShownText, columns: usize) -> Result<Vec<ShownText>, AllocError>
    ensures { IfOk result (λ pieces. pieces.items ≡ broken columns text.now) }
{
    let mut pieces = Vec::new(alloc);
    let mut rest = text.characters();
    'pieces: loop {
        let (piece, more) = split_piece(rest, columns);
        pieces.push(ShownText::copied(alloc, piece)?)?;
        if more.is_empty() {
            return Ok(pieces);
        }
        rest = more;
    }
}

/// Splits off the first piece. Blanks between the piece and the rest are dropped.
fn split_piece(characters: &[char], columns: usize) -> (&[char], &[char])
    ensures piece { result.0.now ≡ without_blanks (take (piece_len columns characters.now) characters.now) }
    ensures rest { result.1.now ≡ behind_piece columns characters.now }
    ensures shorter { 1 ≤ length result.1.now → length result.1.now < length characters.now }
{
    let len = piece_len(characters, columns);
    let piece = without_blanks(&characters[..len]);
    (piece, without_front_blanks(&characters[len..]))
}

/// Returns the length of the first piece.
fn piece_len(characters: &[char], columns: usize) -> usize
    ensures value { result ≡ piece_len columns characters.now }
    ensures within { result ≤ length characters.now }
    ensures some { 1 ≤ length characters.now → 1 ≤ result }
{
    let count = front_len(characters, columns);
    if count == characters.len() {
        return count;
    }
    break_place(characters, count.max(1))
}

/// Returns the place of the last blank after the first third of the first `count` characters, or
/// `count` if there is none.
fn break_place(characters: &[char], count: usize) -> usize
    requires { count ≤ length characters.now }
    ensures value { result ≡ break_place count characters.now }
    ensures within { result ≤ count }
    ensures some { 1 ≤ count → 1 ≤ result }
{
    let mut place = count;
    'back: while place > count / 3 + 1 {
        place -= 1;
        if characters[place] == ' ' {
            return place;
        }
    }
    count
}
