//! How the texts of diagnostics are shortened and trimmed.

ghost use Rattle.std.specs.Prelude.{◌≡◌, ◌≤◌, IfOk, length, take};
ghost use Rattle.std.specs.List.{list_all, prefix_len, suffix_len};
ghost use Rattle.stream_timeline.specs.Details.{back_part, front_part, is_blank, is_blank_or_feed, stored, trimmed_line, without_end};

use crate::reading::limits::{BACK_BYTES, FRONT_BYTES};
use std::alloc::{AllocError, Global};

/// The part of a text that is stored. A text of more than 20,480 bytes keeps its first 8,192 and
/// last 12,288 bytes. Fitted to 1,000 columns, the shortened text looks like the whole one, unless
/// more than four characters without width follow one another. `Err` means that memory was refused.
pub(crate) fn stored(alloc: Global, text: &[u8]) -> Result<Vec<u8>, AllocError>
    ensures { IfOk result (λ bytes. bytes.items ≡ stored text.now) }
{
    let mut bytes = Vec::new(alloc);
    bytes.extend_from_slice(front_part(text))?;
    bytes.extend_from_slice(back_part(text))?;
    Ok(bytes)
}

/// The whole text, or the first 8,192 bytes of a long one.
fn front_part(text: &[u8]) -> &[u8]
    ensures { result.now ≡ front_part text.now }
{
    if text.len() <= FRONT_BYTES + BACK_BYTES {
        text
    } else {
        &text[..FRONT_BYTES]
    }
}

/// The last 12,288 bytes of a long text, else nothing.
fn back_part(text: &[u8]) -> &[u8]
    ensures { result.now ≡ back_part text.now }
{
    if text.len() <= FRONT_BYTES + BACK_BYTES {
        &[]
    } else {
        &text[text.len() - BACK_BYTES..]
    }
}

/// Whether the byte is a blank, a tab or a carriage return.
pub(crate) fn is_blank(byte: u8) -> bool
    ensures { result ≡ is_blank byte }
{
    byte == b' ' || byte == b'\t' || byte == b'\r'
}

/// Whether the line has only blanks, tabs and carriage returns.
pub(crate) fn is_blank_line(line: &[u8]) -> bool
    ensures { result ≡ list_all is_blank line.now }
{
    line.iter().all(|byte| is_blank(*byte))
}

/// The line without blanks, tabs and carriage returns at its ends.
pub(crate) fn trimmed_line(line: &[u8]) -> &[u8]
    ensures { result.now ≡ trimmed_line line.now }
{
    let line = &line[blanks_in_front(line)..];
    &line[..len_without_blanks(line)]
}

/// How many blank bytes the line begins with.
fn blanks_in_front(line: &[u8]) -> usize
    ensures value { result ≡ prefix_len is_blank line.now }
    ensures bound { result ≤ length line.now }
{
    let mut count = 0;
    'front: while count < line.len() && is_blank(line[count]) {
        count += 1;
    }
    count
}

/// The length of the line without the blank bytes at its end.
fn len_without_blanks(line: &[u8]) -> usize
    ensures value { take result line.now ≡ without_end is_blank line.now }
    ensures bound { result ≤ length line.now }
{
    let mut len = line.len();
    'back: while len > 0 && is_blank(line[len - 1]) {
        len -= 1;
    }
    len
}

/// The length of the text without the blank bytes and line feeds at its end.
pub(crate) fn len_without_blank_lines(detail: &[u8]) -> usize
    ensures value { take result detail.now ≡ without_end is_blank_or_feed detail.now }
    ensures bound { result ≤ length detail.now }
{
    let mut len = detail.len();
    'back: while len > 0 && (is_blank(detail[len - 1]) || detail[len - 1] == b'\n') {
        len -= 1;
    }
    len
}
