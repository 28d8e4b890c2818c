//! A flag that is stated by one of two words.

ghost use Rattle.std.specs.Prelude.{◌≡◌};
ghost use Rattle.apply_json.specs.ShallowView.{shallow_view};
ghost use Rattle.apply_plan.specs.Script.Members.{flag_by, word_flag_read};

use apply_json::{Shallow, is_text};

/// The flag. The word `set` means true; the word `unset` or an absent member means false.
///
/// `None` means any other value.
pub fn word_flag(input: Shallow<'_>, set: &str, unset: &str) -> Option<bool>
    ensures { result ≡ word_flag_read set.now unset.now (shallow_view input.entry) }
{
    match input {
        Shallow::Absent => Some(false),
        Shallow::Text(word) => flag_by(word, set, unset),
        _ => None,
    }
}

/// The flag of a word that is present.
fn flag_by(word: &str, set: &str, unset: &str) -> Option<bool>
    ensures { result ≡ flag_by set.now unset.now word.now }
{
    if is_text(word, set) {
        Some(true)
    } else if is_text(word, unset) {
        Some(false)
    } else {
        None
    }
}
