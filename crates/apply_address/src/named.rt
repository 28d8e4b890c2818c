//! Names with their keys.

ghost use Rattle.std.specs.Prelude.{◌≡◌, ◌<◌, length, option_map, IfSome};
ghost use Rattle.apply_address.specs.KeyTexts.{named_view};
ghost use Rattle.apply_address.specs.Reading.{named_at};

use crate::key_text::KeyText;
use crate::name::first_name;

/// A name with a key, where there is one.
#[derive(Clone, Copy)]
pub struct Named<'a> {
    pub name: &'a str,
    pub key: KeyText<'a>,
}

impl<'a> Named<'a> {
    /// The name with its key at the front of a text, and the text after them. `None` where the text
    /// begins with no name, or where a bracket after the name begins no valid key.
    #[tactic(auto, unfolding(crate::specs::Reading::named_at))]
    pub fn first(text: &'a str) -> Option<(Named<'a>, &'a str)>
        ensures value { option_map (λ first. (named_view first.0, first.1.now)) result ≡ named_at text.now }
        ensures shorter { IfSome result (λ first. length first.1.now < length text.now) }
    {
        let (name, remainder) = first_name(text)?;
        let (key, remainder) = KeyText::first(remainder)?;
        Some((Named { name, key }, remainder))
    }
}
