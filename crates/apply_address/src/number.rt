//! Whole numbers as JSON writes them.

ghost use Rattle.std.specs.Prelude.{◌≡◌};
ghost use Rattle.apply_address.specs.Reading.{is_canonical, whole_number as number_of};

/// Whether JSON writes the number so: no plus, no zero before other digits, and no minus before a
/// zero.
fn is_canonical(text: &str) -> bool
    ensures { result ≡ is_canonical text.now }
{
    match text.as_bytes() {
        [b'0'] => true,
        [b'+' | b'0', ..] | [b'-', b'0', ..] => false,
        _ => true,
    }
}

/// The signed 64-bit number that the text writes as JSON does. `None` where the text is none.
pub fn whole_number(text: &str) -> Option<i64>
    ensures { result ≡ number_of text.now }
{
    let number = text.parse::<i64>().ok()?;
    if is_canonical(text) {
        Some(number)
    } else {
        None
    }
}
