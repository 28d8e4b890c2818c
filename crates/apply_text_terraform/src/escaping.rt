//! The escapes of a line, as Go's encoder writes them for HTML. Every `Err` means that memory was
//! refused.

ghost use Rattle.std.specs.Prelude.{◌≡◌, ◌≤◌, ◌<◌, ◌++◌, drop, false, length, string_bytes, take, IfOk, OnOk, OnErr};
ghost use Rattle.std.specs.List.{list_any};
ghost use Rattle.memchr.specs.Find.{is_byte, is_byte3};
ghost use Rattle.apply_text_terraform.specs.Escapes.{begins_with, escaped, is_special};
ghost use Rattle.apply_text_terraform.specs.Lines.{line_of_text};

use memchr::{memchr, memchr3};
use std::alloc::AllocError;

/// How many bytes one search looks at. Without the limit, a rare character would cost a search of
/// the whole text for each escape.
const SEARCH_LEN: usize = 1_024;

/// Appends a line: the text with escapes, and a line feed.
///
/// After an `Err` the lines are unchanged.
pub fn push_line(lines: &mut Vec<u8>, text: &[u8]) -> Result<(), AllocError>
    ensures ok { OnOk result (lines.new.items ≡ lines.old.items ++ line_of_text text.now) }
    ensures err { OnErr result (lines.new.items ≡ lines.old.items) }
{
    let before = lines.len();
    match push_parts(lines, text) {
        Ok(()) => Ok(()),
        Err(refused) => {
            lines.truncate(before);
            Err(refused)
        }
    }
}

/// Escapes a text. The result replaces the content of `room`.
pub fn escaped_text(room: String, text: &str) -> Result<String, AllocError>
    ensures { IfOk result (λ whole. string_bytes whole ≡ escaped text.now) }
{
    let mut bytes = room.into_bytes();
    bytes.clear();
    bytes.reserve(text.len())?;
    push_escaped(&mut bytes, text.as_bytes())?;
    Ok(String::from_utf8(bytes).unwrap())
}

/// Appends a line. After an `Err` a part of it may be there.
fn push_parts(lines: &mut Vec<u8>, text: &[u8]) -> Result<(), AllocError>
    ensures ok { OnOk result (lines.new.items ≡ lines.old.items ++ line_of_text text.now) }
    ensures preserved { take (length lines.old.items) lines.new.items ≡ lines.old.items }
{
    lines.reserve(text.len() + 1)?;
    push_escaped(lines, text)?;
    lines.extend_from_slice(b"\n")
}

/// Appends a text with escapes. After an `Err` a part of it may be there.
pub fn push_escaped(lines: &mut Vec<u8>, text: &[u8]) -> Result<(), AllocError>
    ensures ok { OnOk result (lines.new.items ≡ lines.old.items ++ escaped text.now) }
    ensures preserved { take (length lines.old.items) lines.new.items ≡ lines.old.items }
{
    let mut at = 0;
    while at < text.len() {
        at += push_front(lines, &text[at..])?;
    }
    Ok(())
}

/// Appends the front of a text: the bytes that need no escape, and the next character. Returns how
/// many bytes of the text these are. After an `Err` a part may be there.
fn push_front(lines: &mut Vec<u8>, text: &[u8]) -> Result<usize, AllocError>
    requires { 0 < length text.now }
    ensures ok { IfOk result (λ size. (0 < size) × (size ≤ length text.now)
        × (lines.new.items ++ escaped (drop size text.now) ≡ lines.old.items ++ escaped text.now)) }
    ensures preserved { take (length lines.old.items) lines.new.items ≡ lines.old.items }
{
    let plain = plain_len(text);
    lines.extend_from_slice(&text[..plain])?;
    if plain == text.len() {
        return Ok(plain);
    }
    let (piece, size) = front_of(&text[plain..]);
    lines.extend_from_slice(piece)?;
    Ok(plain + size)
}

/// How many bytes at the front of a text need no escape. Looks at `SEARCH_LEN` bytes at most.
fn plain_len(text: &[u8]) -> usize
    ensures within { result ≤ length text.now }
    ensures plain { list_any is_special (take result text.now) ≡ false }
{
    let searched = &text[..text.len().min(SEARCH_LEN)];
    let bracket = len_before_bracket(searched);
    len_before_separator(&searched[..bracket])
}

/// How many bytes stand before the first `<`, `>` or `&`. All, when there is none.
fn len_before_bracket(text: &[u8]) -> usize
    ensures within { result ≤ length text.now }
    ensures none { list_any (is_byte3 60 62 38) (take result text.now) ≡ false }
{
    match memchr3(b'<', b'>', b'&', text) {
        Some(len) => len,
        None => text.len(),
    }
}

/// How many bytes stand before the first `0xE2`, with which U+2028 and U+2029 begin. All, when
/// there is none.
fn len_before_separator(text: &[u8]) -> usize
    ensures within { result ≤ length text.now }
    ensures none { list_any (is_byte 226) (take result text.now) ≡ false }
{
    match memchr(0xE2, text) {
        Some(len) => len,
        None => text.len(),
    }
}

/// What to write for the first character of a text, and how many bytes of the text it replaces. A
/// character without an escape is written byte by byte.
fn front_of(text: &[u8]) -> (&[u8], usize)
    requires { 0 < length text.now }
    ensures some { 0 < result.1 }
    ensures within { result.1 ≤ length text.now }
    ensures escaped_front { result.0.now ++ escaped (drop result.1 text.now) ≡ escaped text.now }
{
    let first = text[0];
    if first == b'<' {
        (b"\\u003c", 1)
    } else if first == b'>' {
        (b"\\u003e", 1)
    } else if first == b'&' {
        (b"\\u0026", 1)
    } else if first == 0xE2 && goes_on(text, 0xA8) {
        (b"\\u2028", 3)
    } else if first == 0xE2 && goes_on(text, 0xA9) {
        (b"\\u2029", 3)
    } else {
        (&text[..1], 1)
    }
}

/// Whether the second byte of the text is `0x80`, and the third one is `third`.
fn goes_on(text: &[u8], third: u8) -> bool
    requires { 0 < third }
    ensures { result ≡ begins_with 128 third (drop 1 text.now) }
{
    text.len() > 2 && text[1] == 0x80 && text[2] == third
}
