//! The characters that are escaped, and their escapes.

ghost use Rattle.std.specs.Prelude.{◌≡◌, ◌<◌, IsTrue, if◌then◌else◌, is_ok, ◌++◌, string_bytes};
ghost use Rattle.std.specs.Char.{digit_char};
ghost use Rattle.term_text.specs.Shown.{is_hidden as is_hidden_character, escape};

use std::alloc::AllocError;
use std::str;

// Whether the character is escaped. The code of each such character has at most four hexadecimal
// digits.
#[tactic(auto, unfolding(crate::specs::Shown::is_hidden))]
pub(crate) fn is_hidden(character: char) -> bool
    ensures value { result ≡ is_hidden_character character }
    ensures four_digits { IsTrue result → character < 0x1_0000 }
{
    matches!(
        character,
        '\u{0}'..='\u{1F}'
            | '\u{7F}'..='\u{9F}'
            | '\u{61C}'
            | '\u{200B}'..='\u{200F}'
            | '\u{2028}'..='\u{202E}'
            | '\u{2060}'..='\u{206F}'
            | '\u{FEFF}'
            | '\u{FFFE}'..='\u{FFFF}'
    )
}

// Returns the hexadecimal digit, as a small letter from 10 on.
fn digit(value: u32) -> u8
    requires { value < 16 }
    ensures { result ≡ digit_char value }
{
    let value = value as u8;
    if value < 10 {
        b'0' + value
    } else {
        b'a' + (value - 10)
    }
}

// Appends `\u` and the four digits of the code. `Err` where memory is refused: the text is
// unchanged then.
pub(crate) fn push_escape(text: &mut String, code: u32) -> Result<(), AllocError>
    requires { code < 0x1_0000 }
    ensures { string_bytes text.new ≡ (if is_ok result then string_bytes text.old ++ escape code else string_bytes text.old) }
{
    let bytes = [
        b'\\',
        b'u',
        digit(code / 4096),
        digit(code / 256 % 16),
        digit(code / 16 % 16),
        digit(code % 16),
    ];
    text.push_str(str::from_utf8(&bytes).unwrap())
}
