//! Escapes control characters and commands to runners of jobs. Each `Err` means that memory was
//! refused.

ghost use Rattle.std.specs.Prelude.{◌≡◌, ◌<◌, ◌≤◌, ◌++◌, length, take, IfOk, OnOk, OnErr, is_ok, if◌then◌else◌, string_bytes, string_len};
ghost use Rattle.term_text.specs.Shown.{shown_after, shown_piece, shown_text};
ghost use Rattle.term_text.specs.declared.command_start.CommandStart.{CommandStart as command_start};

use crate::command_start::CommandStart;
use crate::hidden::{is_hidden, push_escape};
use crate::piece::first_piece;
use std::alloc::{AllocError, Global};

// Appends one escaped piece. A byte that belongs to no character becomes the escape of U+FFFD.
// `start` is how much of a command stands before the piece.
#[tactic(auto, unfolding(crate::specs::Shown::shown_character))]
fn push_piece(text: &mut String, start: CommandStart, piece: Option<char>) -> Result<(), AllocError>
    ensures { string_bytes text.new ≡ (if is_ok result then string_bytes text.old ++ shown_piece start piece else string_bytes text.old) }
{
    match piece {
        None => push_escape(text, 0xFFFD),
        Some('\n') => text.push_str("\\n"),
        Some('\t') => text.push_str("\\t"),
        Some('[') if start.is_named() => push_escape(text, u32::from(b'[')),
        Some(character) if is_hidden(character) => push_escape(text, character as u32),
        Some(character) => text.push(character),
    }
}

// Appends the escaped bytes until the text is longer than `limit`. Returns the bytes that are left.
// Where memory is refused, the text keeps its old front, with some new bytes after it.
pub(crate) fn push_until<'a>(
    text: &mut String,
    limit: usize,
    bytes: &'a [u8],
) -> Result<&'a [u8], AllocError>
    ensures added { IfOk result (λ rest. (start : command_start) × (string_bytes text.new ++ shown_after start rest.now ≡ string_bytes text.old ++ shown_text bytes.now)) }
    ensures enough { IfOk result (λ rest. 0 < length rest.now → (limit < string_len text.new) × (limit < usize.MAX)) }
    ensures kept { take (length (string_bytes text.old)) (string_bytes text.new) ≡ string_bytes text.old }
{
    let mut rest = bytes;
    let mut start = CommandStart::Nothing;
    while !rest.is_empty() && text.len() <= limit {
        let (piece, size) = first_piece(rest);
        push_piece(text, start, piece)?;
        start = start.after(piece);
        rest = &rest[size..];
    }
    Ok(rest)
}

/// Appends the bytes with control characters escaped, so that no input steers a terminal. The `[`
/// of a command is escaped too, so that no input steers a runner of jobs:
///
/// - Line feed and tab become `\n` and `\t`.
/// - `\u` and four small hexadecimal digits stand for other characters below U+0020 and for U+007F
///   to U+009F.
/// - The same escape stands for direction marks, separators and zero-width characters: U+061C,
///   U+200B to U+200F, U+2028 to U+202E and U+2060 to U+206F.
/// - It also stands for U+FEFF, U+FFFE and U+FFFF (Unicode).
/// - `\u005b` stands for a `[` after `##`, or after `##` and letters of ASCII. With them it would be
///   a command to a runner of GitHub, Azure Pipelines or TeamCity.
/// - `\ufffd` stands for each byte that belongs to no character of UTF-8 (RFC 3629, section 4).
/// - Every other character stays as it is, a backslash too.
///
/// Only the bytes are looked at. Where the text ends with `##`, a `[` at their start stays as it
/// is.
///
/// `Err` where memory is refused: the text is unchanged then.
pub fn push_controls_escaped(text: &mut String, bytes: &[u8]) -> Result<(), AllocError>
    ensures ok { OnOk result (string_bytes text.new ≡ string_bytes text.old ++ shown_text bytes.now) }
    ensures err { OnErr result (string_bytes text.new ≡ string_bytes text.old) }
{
    let before = text.len();
    match push_until(text, usize::MAX, bytes) {
        Ok(_) => Ok(()),
        Err(refused) => {
            text.truncate(before);
            Err(refused)
        }
    }
}

/// Returns the bytes with control characters escaped (see [`push_controls_escaped`]).
pub fn escape_controls(alloc: Global, bytes: &[u8]) -> Result<String, AllocError>
    ensures { IfOk result (λ text. string_bytes text ≡ shown_text bytes.now) }
{
    let mut text = String::new(alloc);
    push_controls_escaped(&mut text, bytes)?;
    Ok(text)
}
