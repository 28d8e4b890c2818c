//! Escapes characters for markup.

ghost use Rattle.std.specs.Prelude.{◌≡◌, ◌++◌, OnOk, string_bytes};
ghost use Rattle.term_text.specs.Markup.{markup_escaped};

use std::alloc::AllocError;

/// Appends a character to markup text, or between quotes. A character with a meaning in markup
/// becomes an entity (XML 1.0, section 4.6). `Err` where memory is refused.
pub fn push_markup_escaped(markup: &mut String, character: char) -> Result<(), AllocError>
    ensures { OnOk result (string_bytes markup.new ≡ string_bytes markup.old ++ markup_escaped character) }
{
    match character {
        '&' => markup.push_str("&amp;"),
        '<' => markup.push_str("&lt;"),
        '>' => markup.push_str("&gt;"),
        '"' => markup.push_str("&quot;"),
        _ => markup.push(character),
    }
}
