//! Scalar members of an item.

ghost use Rattle.std.specs.Prelude.{◌≡◌};
ghost use Rattle.std.specs.Option.{option_copied};
ghost use Rattle.apply_json.specs.ShallowView.{shallow_view};
ghost use Rattle.apply_plan.specs.FilledText.{filled_read};
ghost use Rattle.apply_plan.specs.Script.Members.{flag_read, number_read};

use apply_json::{Shallow, non_empty};

/// The text. `None` means an empty text or a value of another type.
pub fn filled_text<'a>(input: Shallow<'a>) -> Option<&'a str>
    ensures { option_copied result ≡ filled_read (shallow_view input.entry) }
{
    match input.text() {
        Some(text) => non_empty(text),
        None => None,
    }
}

/// The whole number from 0 to 2^64 - 1, or `Some(None)` for an absent member.
///
/// `None` means any other value.
pub fn number_or_none(input: Shallow<'_>) -> Option<Option<u64>>
    ensures { result ≡ number_read (shallow_view input.entry) }
{
    match input {
        Shallow::Absent => Some(None),
        _ => match input.whole() {
            Some(number) => Some(Some(number)),
            None => None,
        },
    }
}

/// The flag, or `false` if it is absent. `None` means a value of another type.
pub fn flag_or_false(input: Shallow<'_>) -> Option<bool>
    ensures { result ≡ flag_read (shallow_view input.entry) }
{
    match input {
        Shallow::Absent => Some(false),
        Shallow::Bool(flag) => Some(flag),
        _ => None,
    }
}
