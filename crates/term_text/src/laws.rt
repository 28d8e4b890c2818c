//! Laws of escaped and cut texts. Each function does nothing; its contract is the law.

ghost use Rattle.std.specs.Prelude.{ℕ, List, ◌≡◌, ◌≢◌, ◌≤◌, ◌∷◌, ◌++◌, codes, length, take};
ghost use Rattle.std.specs.List.{flat_map};
ghost use Rattle.term_text.specs.Commands.{HoldsNoCommand, after_character};
ghost use Rattle.term_text.specs.declared.command_start.CommandStart.{CommandStart as command_start};
ghost use Rattle.term_text.specs.Markup.{IsMarkupEscaped, markup_escaped};
ghost use Rattle.std.specs.Char.{encode_utf8, IsScalar};
ghost use Rattle.std.specs.Str.{IsUtf8, NoCharPasses, StartsWithNoChar};
ghost use Rattle.std.specs.Str.Lossy.{replacement_bytes};
ghost use Rattle.term_text.specs.Shown.{is_hidden, readable_text, shown_after, shown_character_after, shown_character, shown_text};
ghost use Rattle.term_text.specs.Fronts.{cut_text, front_of};

/// An escaped text holds no markup: it has no `<`, and each `&` starts an entity.
pub fn what_is_escaped_is_no_markup()
    ensures { (characters : List ℕ) → IsMarkupEscaped (flat_map markup_escaped characters) }
{}

/// An escaped text holds none of the characters that
/// [`push_controls_escaped`](crate::push_controls_escaped) escapes, wherever it is cut. So no input
/// steers a terminal.
pub fn nothing_hidden_is_shown()
    ensures whole { (bytes : List ℕ) → NoCharPasses is_hidden (shown_text bytes) }
    ensures cut { (limit : ℕ) (bytes : List ℕ) → NoCharPasses is_hidden (cut_text limit (shown_text bytes)) }
{}

/// An escaped text holds no command to a runner of jobs, wherever it is cut: no `[` follows `##`,
/// or `##` and letters of ASCII.
pub fn no_command_is_shown()
    ensures whole { (bytes : List ℕ) → HoldsNoCommand (shown_text bytes) }
    ensures cut { (limit : ℕ) (bytes : List ℕ) → HoldsNoCommand (cut_text limit (shown_text bytes)) }
{}

/// Bytes that start with a character are read as that character. Otherwise the first byte is a
/// piece of its own (RFC 3629, section 4).
///
/// How a character is shown depends on the start of a command before it. At the start of a text,
/// only a `#` starts one.
pub fn each_byte_of_no_character_stands_for_itself()
    ensures shown_start { (bytes : List ℕ) → shown_text bytes ≡ shown_after command_start.Nothing bytes }
    ensures shown_character_after { (start : command_start) (character : ℕ) (behind : List ℕ) → IsScalar character
        → shown_after start (encode_utf8 character ++ behind) ≡ shown_character_after start character ++ shown_after (after_character start character) behind }
    ensures shown_character { (character : ℕ) (behind : List ℕ) → IsScalar character → character ≢ 35
        → shown_text (encode_utf8 character ++ behind) ≡ shown_character character ++ shown_text behind }
    ensures shown_byte { (start : command_start) (byte : ℕ) (behind : List ℕ) → StartsWithNoChar (byte ∷ behind)
        → shown_after start (byte ∷ behind) ≡ codes "\\ufffd" ++ shown_text behind }
    ensures readable_character { (character : ℕ) (behind : List ℕ) → IsScalar character
        → readable_text (encode_utf8 character ++ behind) ≡ encode_utf8 character ++ readable_text behind }
    ensures readable_byte { (byte : ℕ) (behind : List ℕ) → StartsWithNoChar (byte ∷ behind)
        → readable_text (byte ∷ behind) ≡ replacement_bytes ++ readable_text behind }
{}

/// A cut text has at most as many bytes as its limit.
pub fn a_cut_text_has_room()
    ensures { (limit : ℕ) (text : List ℕ) → length (cut_text limit text) ≤ limit }
{}

/// Valid UTF-8 is its own readable text. Where it has nothing hidden and holds no command, it is
/// its own escaped text. So an escaped text stays as it is when it is escaped again.
pub fn text_stands_as_it_is()
    ensures readable { (text : List ℕ) → IsUtf8 text → readable_text text ≡ text }
    ensures shown { (text : List ℕ) → IsUtf8 text → NoCharPasses is_hidden text → HoldsNoCommand text → shown_text text ≡ text }
    ensures twice { (bytes : List ℕ) → shown_text (shown_text bytes) ≡ shown_text bytes }
{}

/// A front of valid UTF-8 is valid UTF-8, and no longer such front fits into the limit.
pub fn a_front_of_text_is_text()
    ensures text { (limit : ℕ) (text : List ℕ) → IsUtf8 text → IsUtf8 (front_of limit text) }
    ensures longest { (limit size : ℕ) (text : List ℕ) → IsUtf8 text → size ≤ limit → size ≤ length text
        → IsUtf8 (take size text) → size ≤ length (front_of limit text) }
{}
