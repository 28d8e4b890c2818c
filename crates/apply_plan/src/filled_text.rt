//! Texts that must not be empty.

ghost use Rattle.std.specs.Prelude.{◌≡◌};
ghost use Rattle.std.specs.Option.{option_copied};
ghost use Rattle.apply_json.specs.ShallowView.{shallow_view};
ghost use Rattle.apply_plan.specs.FilledText.{filled_read};

use apply_json::{Shallow, non_empty};

/// The text. `None` means an empty text or a value of another type.
pub fn filled_text<'a>(input: Shallow<'a>) -> Option<&'a str>
    ensures { option_copied result ≡ filled_read (shallow_view input.entry) }
{
    match input.text() {
        Some(text) => non_empty(text),
        None => None,
    }
}
