//! Lines of what a program writes for a terminal, as text. Each `Err` means that memory was
//! refused.

ghost use Rattle.std.specs.Prelude.{◌≡◌, ◌+◌, ◌-◌, ◌%◌, ◌≤◌, ◌++◌, IfOk, OnOk, [], length, replicate, string_bytes};
ghost use Rattle.std.specs.Str.{chars};
ghost use Rattle.term_text.specs.Columns.{columns_of};
ghost use Rattle.term_text.specs.LineTexts.{colour_size, is_parameter, line_text, size_through, tabbed_after, to_tab_stop, uncoloured, without_spacing};
ghost use Rattle.term_text.specs.Shown.{shown_text};

use crate::columns::columns_of;
use crate::controls::{escape_controls, push_controls_escaped};
use std::alloc::{AllocError, Global};

/// What starts a sequence of colours (ECMA-48, section 8.3.117).
const BEGIN: &[u8] = b"\x1b[";

/// What ends it.
const END: u8 = b'm';

/// A tab goes on to the next multiple of so many columns.
const TAB: usize = 8;

/// Returns the text of one line that a program wrote for a terminal:
///
/// - Sequences of colours are dropped: ESC, `[`, digits, colons and semicolons, and `m`.
/// - Then blanks, tabs and carriage returns at the end are dropped.
/// - Each tab becomes one to eight blanks, up to the next column of eight of the text.
/// - The rest is escaped (see [`push_controls_escaped`](crate::push_controls_escaped)).
#[tactic(auto, unfolding(crate::specs::LineTexts::line_text))]
pub fn line_text(alloc: Global, bytes: &[u8]) -> Result<String, AllocError>
    ensures { IfOk result (λ text. string_bytes text ≡ line_text bytes.now) }
{
    let plain = uncoloured(alloc, bytes)?;
    tabbed(alloc, without_spacing(&plain))
}

/// Returns the bytes without sequences of colours.
fn uncoloured(alloc: Global, bytes: &[u8]) -> Result<Vec<u8>, AllocError>
    ensures { IfOk result (λ plain. plain.items ≡ uncoloured bytes.now) }
{
    let mut plain = Vec::new(alloc);
    let mut passed = 0;
    for (place, byte) in bytes.iter().enumerate() {
        if passed == 0 {
            passed = colour_size(&bytes[place..]);
        }
        if passed == 0 {
            plain.push(*byte)?;
        } else {
            passed -= 1;
        }
    }
    Ok(plain)
}

/// Returns the size of the sequence of colours in front of the bytes, or 0 if none stands there.
#[tactic(auto, unfolding(crate::specs::LineTexts::colour_size))]
fn colour_size(bytes: &[u8]) -> usize
    ensures value { result ≡ colour_size bytes.now }
    ensures within { result ≤ length bytes.now }
{
    if !bytes.starts_with(BEGIN) {
        return 0;
    }
    let behind = &bytes[BEGIN.len()..];
    for (place, byte) in behind.iter().enumerate() {
        if *byte == END {
            return BEGIN.len() + place + 1;
        }
        if !is_parameter(*byte) {
            return 0;
        }
    }
    0
}

/// Whether the byte may stand between the start and the end of a sequence of colours.
fn is_parameter(byte: u8) -> bool
    ensures { result ≡ is_parameter byte }
{
    matches!(byte, b'0'..=b';')
}

/// Returns the bytes without blanks, tabs and carriage returns at their end.
fn without_spacing(bytes: &[u8]) -> &[u8]
    ensures { result.now ≡ without_spacing bytes.now }
{
    let mut len = bytes.len();
    'back: while len > 0 && matches!(bytes[len - 1], b' ' | b'\t' | b'\r') {
        len -= 1;
    }
    &bytes[..len]
}

/// Returns the escaped bytes, with a tab as blanks up to the next column of eight.
fn tabbed(alloc: Global, bytes: &[u8]) -> Result<String, AllocError>
    ensures { IfOk result (λ text. string_bytes text ≡ tabbed_after [] bytes.now) }
{
    let mut text = String::new(alloc);
    let mut start = 0;
    for (place, byte) in bytes.iter().enumerate() {
        if *byte == b'\t' {
            push_to_tab_stop(alloc, &mut text, &bytes[start..place])?;
            start = place + 1;
        }
    }
    push_controls_escaped(&mut text, &bytes[start..])?;
    Ok(text)
}

/// Appends the escaped bytes, and one to eight blanks up to the next column of eight. The text ends
/// at such a column.
fn push_to_tab_stop(alloc: Global, text: &mut String, part: &[u8]) -> Result<(), AllocError>
    ensures { OnOk result (string_bytes text.new ≡ string_bytes text.old ++ to_tab_stop (shown_text part.now)) }
{
    let shown = escape_controls(alloc, part)?;
    text.push_str(shown.as_str())?;
    push_blanks(text, TAB - column_of(shown.as_str()))
}

/// Returns how many columns after a multiple of eight columns the text ends.
fn column_of(text: &str) -> usize
    ensures value { result ≡ columns_of (chars text.now) % 8 }
    ensures within { result ≤ 7 }
{
    let mut column = 0;
    for character in text.chars() {
        column = (column + columns_of(character) % TAB) % TAB;
    }
    column
}

/// Appends blanks.
fn push_blanks(text: &mut String, count: usize) -> Result<(), AllocError>
    ensures { OnOk result (string_bytes text.new ≡ string_bytes text.old ++ replicate count 32) }
{
    'blanks: for _blank in 0..count {
        text.push(' ')?;
    }
    Ok(())
}
