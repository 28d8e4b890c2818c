//! Comparing texts, and empty texts.

ghost use Rattle.std.specs.Prelude.{◌≡◌};
ghost use Rattle.std.specs.Option.{option_copied};
ghost use Rattle.std.specs.Str.{bytes_eq};
ghost use Rattle.apply_json.specs.Tree.{unless_empty};

/// Whether two texts are equal. Proofs follow this call faster than `==`, which borrows both anew.
#[inline(always)]
pub fn is_text(text: &str, other: &str) -> bool
    ensures { result ≡ bytes_eq text.now other.now }
{
    text == other
}

/// The text, or `None` if it is empty.
pub fn non_empty(text: &str) -> Option<&str>
    ensures { option_copied result ≡ unless_empty text.now }
{
    if text.is_empty() { None } else { Some(text) }
}
