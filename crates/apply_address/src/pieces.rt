//! The pieces of a text between quotes. Each piece stands for one character.

ghost use Rattle.std.specs.Prelude.{◌≡◌, ◌≤◌, ◌<◌, option_map, length, IfSome};
ghost use Rattle.apply_address.specs.Reading.{character_at, code_at, escape_at, piece_at};
ghost use Rattle.apply_address.specs.Reading.{hexadecimal as number_of_digits};

/// The first character, and the text after it. `None` where the text is empty.
#[tactic(auto, unfolding(crate::specs::Reading::character_at))]
fn first_character(text: &str) -> Option<(char, &str)>
    ensures value { option_map (λ first. (first.0, first.1.now)) result ≡ character_at text.now }
    ensures shorter { IfSome result (λ first. length first.1.now < length text.now) }
{
    let mut characters = text.chars();
    let character = characters.next()?;
    Some((character, characters.as_str()))
}

/// The value of hexadecimal digits. `None` where a byte is no such digit.
fn hexadecimal(digits: &[u8]) -> Option<u32>
    requires { length digits.now ≤ 8 }
    ensures { result ≡ number_of_digits digits.now }
{
    let mut value = 0u32;
    for digit in digits {
        value = value * 16 + char::from(*digit).to_digit(16)?;
    }
    Some(value)
}

/// The character whose code the first `count` hexadecimal digits give, and the text after them.
/// `None` where the text begins with fewer digits, or no character has the code.
#[tactic(auto, unfolding(crate::specs::Reading::code_at))]
fn code(text: &str, count: usize) -> Option<(char, &str)>
    requires { count ≤ 8 }
    ensures value { option_map (λ first. (first.0, first.1.now)) result ≡ code_at count text.now }
    ensures no_longer { IfSome result (λ first. length first.1.now ≤ length text.now) }
{
    if text.len() < count {
        return None;
    }
    let code = hexadecimal(&text.as_bytes()[..count])?;
    let character = char::from_u32(code)?;
    Some((character, &text[count..]))
}

/// The character of an escape whose backslash was read, and the text after the escape. `None` where
/// there is no such escape.
#[tactic(auto, unfolding(crate::specs::Reading::escape_at))]
fn escape(text: &str) -> Option<(char, &str)>
    ensures value { option_map (λ first. (first.0, first.1.now)) result ≡ escape_at text.now }
    ensures shorter { IfSome result (λ first. length first.1.now < length text.now) }
{
    let (letter, remainder) = first_character(text)?;
    match letter {
        '"' | '\\' => Some((letter, remainder)),
        'n' => Some(('\n', remainder)),
        'r' => Some(('\r', remainder)),
        't' => Some(('\t', remainder)),
        'u' => code(remainder, 4),
        'U' => code(remainder, 8),
        _ => None,
    }
}

/// The character of the first piece, and the text after the piece. `None` where the text is empty,
/// or begins with a quote or an invalid escape.
#[tactic(auto, unfolding(crate::specs::Reading::piece_at))]
pub fn first_piece(text: &str) -> Option<(char, &str)>
    ensures value { option_map (λ first. (first.0, first.1.now)) result ≡ piece_at text.now }
    ensures shorter { IfSome result (λ first. length first.1.now < length text.now) }
{
    let (character, remainder) = first_character(text)?;
    match character {
        '"' => None,
        '\\' => escape(remainder),
        _ => Some((character, remainder)),
    }
}
