//! Texts between quotes.

ghost use Rattle.std.specs.Prelude.{◌≡◌, ◌≤◌, length, IfOk, string_bytes};
ghost use Rattle.apply_address.specs.Pieces.{is_doubled};
ghost use Rattle.apply_address.specs.Reading.{after_pieces, unescaped_in};

use crate::pieces::first_piece;
use std::alloc::{AllocError, Global};

/// The text after the pieces at the front.
pub fn after_text(text: &str) -> &str
    ensures value { result.now ≡ after_pieces (length text.now) text.now }
    ensures no_longer { length result.now ≤ length text.now }
{
    let mut rest = text;
    while let Some((_, remainder)) = first_piece(rest) {
        rest = remainder;
    }
    rest
}

/// Whether the text begins with `$${`, which stands for `${`, or with `%%{`, which stands for `%{`.
fn is_doubled_sign(text: &str) -> bool
    ensures { result ≡ is_doubled text.now }
{
    text.starts_with("$${") || text.starts_with("%%{")
}

/// The text of the pieces at the front, with their escapes resolved. `Err` where memory is refused.
pub fn unescaped(alloc: Global, text: &str) -> Result<String, AllocError>
    ensures { IfOk result (λ content. string_bytes content ≡ unescaped_in text.now) }
{
    let mut content = String::new(alloc);
    let mut rest = text;
    while let Some((character, remainder)) = first_piece(rest) {
        if !is_doubled_sign(rest) {
            content.push(character)?;
        }
        rest = remainder;
    }
    Ok(content)
}
