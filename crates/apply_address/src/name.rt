//! Names of modules, types and resources.

ghost use Rattle.std.specs.Prelude.{◌≡◌, ◌<◌, length, option_map, IfSome};
ghost use Rattle.std.specs.List.{position_or_len};
ghost use Rattle.apply_address.specs.Names.{is_delimiter as is_delimiter_byte};
ghost use Rattle.apply_address.specs.Reading.{name_at};

/// Whether the byte ends a name: a blank, a dot, a bracket or a quote.
fn is_delimiter(byte: u8) -> bool
    ensures { result ≡ is_delimiter_byte byte }
{
    matches!(byte, 0..=b' ' | b'.' | b'[' | b']' | b'"')
}

/// The number of bytes before the first delimiter.
fn name_size(bytes: &[u8]) -> usize
    ensures { result ≡ position_or_len is_delimiter_byte bytes.now }
{
    for (size, byte) in bytes.iter().enumerate() {
        if is_delimiter(*byte) {
            return size;
        }
    }
    bytes.len()
}

/// The longest name at the front of a text, and the text after the name. `None` where the text
/// begins with a delimiter or is empty.
#[tactic(auto, unfolding(crate::specs::Reading::name_at))]
pub fn first_name(text: &str) -> Option<(&str, &str)>
    ensures value { option_map (λ first. (first.0.now, first.1.now)) result ≡ name_at text.now }
    ensures shorter { IfSome result (λ first. length first.1.now < length text.now) }
{
    let size = name_size(text.as_bytes());
    if size == 0 {
        None
    } else {
        Some(text.split_at(size))
    }
}
