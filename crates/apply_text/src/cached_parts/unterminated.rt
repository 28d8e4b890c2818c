//! JSON strings without their closing quote, so that more text can follow. Every `Err` means that
//! memory was refused.

ghost use Rattle.std.specs.Prelude.{◌≡◌, [], ◌∷◌, ◌++◌, IfOk, string_bytes};
ghost use Rattle.apply_text.specs.CachedParts.{unterminated as unterminated_of};

use json::Writer;
use std::alloc::{AllocError, Global};

// More bytes than most texts need, with their quotes.
const TEXT_LEN: usize = 256;

/// The text as a JSON string without its closing quote.
pub fn unterminated(alloc: Global, text: &str) -> Result<String, AllocError>
    ensures { IfOk result (λ begun. string_bytes begun ≡ unterminated_of text.now) }
{
    with_unterminated(String::with_capacity(alloc, TEXT_LEN)?, text)
}

/// Appends `text` to `first`, as a JSON string without its closing quote.
pub fn with_unterminated(first: String, text: &str) -> Result<String, AllocError>
    ensures { IfOk result (λ whole. string_bytes whole ≡ string_bytes first ++ unterminated_of text.now) }
{
    let mut whole = with_quoted(first, text)?;
    whole.truncate(whole.len() - 1);
    Ok(whole)
}

/// Appends `text` to `first`, as a JSON string.
fn with_quoted(first: String, text: &str) -> Result<String, AllocError>
    ensures { IfOk result (λ whole. string_bytes whole ≡ (string_bytes first ++ unterminated_of text.now) ++ 34 ∷ []) }
{
    let mut out = Writer::new(first.into_bytes());
    out.string(text)?;
    Ok(String::from_utf8(out.into_inner()).unwrap())
}
