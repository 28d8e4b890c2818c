//! Reads bytes as text.

ghost use Rattle.std.specs.Prelude.{◌≡◌, ◌++◌, IfOk, is_ok, if◌then◌else◌, string_bytes};
ghost use Rattle.term_text.specs.Shown.{readable_text};

use crate::piece::first_piece;
use std::alloc::{AllocError, Global};

/// Returns the bytes as text, with U+FFFD for each byte that belongs to no character of UTF-8 (RFC
/// 3629, section 4). `Err` where memory is refused.
pub fn readable(alloc: Global, bytes: &[u8]) -> Result<String, AllocError>
    ensures { IfOk result (λ text. string_bytes text ≡ readable_text bytes.now) }
{
    let mut text = String::new(alloc);
    let mut rest = bytes;
    while !rest.is_empty() {
        let (piece, size) = first_piece(rest);
        text.push(piece.unwrap_or('\u{FFFD}'))?;
        rest = &rest[size..];
    }
    Ok(text)
}
