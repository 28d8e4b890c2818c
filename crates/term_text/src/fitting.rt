//! Fits texts into a limited number of columns. Each `Err` means that memory was refused.

ghost use Rattle.std.specs.Prelude.{◌≡◌, ◌<◌, ◌≤◌, ◌+◌, ◌-◌, IfOk, drop, length, take};
ghost use Rattle.term_text.specs.Columns.{columns_of};
ghost use Rattle.term_text.specs.Fitting.{cut_short, few_marks, fitted};

use crate::columns::{columns, columns_of};
use crate::shown_text::ShownText;
use std::alloc::{AllocError, Global};

/// How many zero-width characters may stand in a row.
const MOST_MARKS: usize = 4;

/// Returns the text in at most `limit` columns. At most four zero-width characters in a row are
/// retained.
///
/// A wider text becomes its start, `…` and its end. The start gets two fifths of the room, the end
/// gets the rest.
pub fn fitted(alloc: Global, text: &ShownText, limit: usize) -> Result<ShownText, AllocError>
    ensures { IfOk result (λ short. short ≡ fitted limit text.now) }
{
    let characters = with_few_marks(alloc, text.characters())?;
    if front_len(&characters, limit) == characters.len() {
        return Ok(ShownText { characters });
    }
    Ok(ShownText {
        characters: cut_short(alloc, &characters, limit.saturating_sub(1))?,
    })
}

/// Returns the start and the end of the characters around `…`. Start and end share `room` columns.
fn cut_short(alloc: Global, characters: &[char], room: usize) -> Result<Vec<char>, AllocError>
    ensures { IfOk result (λ short. short.items ≡ cut_short room characters.now) }
{
    let front = front_len(characters, room / 5 * 2 + room % 5 * 2 / 5);
    let used = columns(&characters[..front]);
    let back = back_len(characters, room.saturating_sub(used));
    let mut short = Vec::new(alloc);
    short.extend_from_slice(&characters[..front])?;
    short.push('…')?;
    short.extend_from_slice(&characters[characters.len() - back..])?;
    Ok(short)
}

/// Returns the characters, with at most four zero-width ones in a row.
fn with_few_marks(alloc: Global, characters: &[char]) -> Result<Vec<char>, AllocError>
    ensures { IfOk result (λ few. few.items ≡ few_marks 0 characters.now) }
{
    let mut few = Vec::new(alloc);
    let mut marks = 0;
    for character in characters {
        if columns_of(*character) > 0 {
            marks = 0;
        } else if marks >= MOST_MARKS {
            continue;
        } else {
            marks += 1;
        }
        few.push(*character)?;
    }
    Ok(few)
}

/// Returns how many of the first characters fit into `limit` columns.
pub(crate) fn front_len(characters: &[char], limit: usize) -> usize
    ensures within { result ≤ length characters.now }
    ensures fits { columns_of (take result characters.now) ≤ limit }
    ensures full { result < length characters.now → limit < columns_of (take (result + 1) characters.now) }
{
    let mut left = limit;
    for (len, character) in characters.iter().enumerate() {
        let columns = columns_of(*character);
        if columns > left {
            return len;
        }
        left -= columns;
    }
    characters.len()
}

/// Returns how many of the last characters fit into `limit` columns.
fn back_len(characters: &[char], limit: usize) -> usize
    ensures within { result ≤ length characters.now }
    ensures fits { columns_of (drop (length characters.now - result) characters.now) ≤ limit }
    ensures full { result < length characters.now → limit < columns_of (drop (length characters.now - (result + 1)) characters.now) }
{
    let mut left = limit;
    let mut len = 0;
    'back: while len < characters.len() {
        let columns = columns_of(characters[characters.len() - 1 - len]);
        if columns > left {
            return len;
        }
        left -= columns;
        len += 1;
    }
    len
}
