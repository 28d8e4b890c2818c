//! Escapes control characters within a limit of bytes. Each `Err` means that memory was refused.

ghost use Rattle.std.specs.Prelude.{◌≡◌, ◌<◌, ◌++◌, ◌-◌, ◌≤◌, IfOk, OnOk, string_bytes, string_len, codes, take};
ghost use Rattle.term_text.specs.Shown.{shown_text};
ghost use Rattle.term_text.specs.Fronts.{front_of, cut_text};

use crate::controls::push_until;
use crate::fronts::front_size;
use std::alloc::{AllocError, Global};

const DOTS: usize = 3;

// Appends three dots, or as many as fit into `limit`.
fn push_dots(text: &mut String, limit: usize) -> Result<(), AllocError>
    ensures { OnOk result (string_bytes text.new ≡ string_bytes text.old ++ take limit (codes "...")) }
{
    match limit {
        0 => Ok(()),
        1 => text.push_str("."),
        2 => text.push_str(".."),
        _ => text.push_str("..."),
    }
}

// Cuts the text to `limit` bytes, with dots at its end.
fn cut(mut text: String, limit: usize) -> Result<String, AllocError>
    ensures { IfOk result (λ short. string_bytes short ≡ front_of (limit - 3) (string_bytes text) ++ take limit (codes "...")) }
{
    text.truncate(front_size(text.as_bytes(), limit.saturating_sub(DOTS)));
    push_dots(&mut text, limit)?;
    Ok(text)
}

/// Returns the bytes with control characters escaped, in at most `limit` bytes (see
/// [`push_controls_escaped`](crate::push_controls_escaped)).
///
/// A longer text is cut between two characters, three bytes early, and three dots follow. A limit
/// below three gives as many dots. The memory in use depends on `limit`, not on the length of the
/// input.
pub fn escape_controls_within(
    alloc: Global,
    limit: usize,
    bytes: &[u8],
) -> Result<String, AllocError>
    ensures { IfOk result (λ text. string_bytes text ≡ cut_text limit (shown_text bytes.now)) }
{
    let mut text = String::new(alloc);
    push_until(&mut text, limit, bytes)?;
    if text.len() <= limit {
        return Ok(text);
    }
    cut(text, limit)
}
