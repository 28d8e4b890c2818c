//! Instance keys as an address writes them.

ghost use Rattle.std.specs.Prelude.{◌≡◌, ◌≤◌, length, option_map, IfOk, IfSome};
ghost use Rattle.apply_address.specs.Reading.{cut_at_bracket, key_at, number_key_at, text_key_at};
ghost use Rattle.apply_address.specs.KeyTexts.{key_of};

use crate::number::whole_number;
use crate::quoted::{after_text, unescaped};
use apply_model::{Key, Text};
use std::alloc::{AllocError, Global};

/// An instance key as an address writes it.
#[derive(Clone, Copy)]
pub enum KeyText<'a> {
    /// There is no key.
    None,
    /// A whole number.
    Number(i64),
    /// The text that begins after the opening quote. The key ends before the next quote without a
    /// backslash.
    Quoted(&'a str),
}

/// The texts before and after the first `]`. `None` where there is none.
#[tactic(auto, unfolding(crate::specs::Reading::cut_at_bracket))]
fn cut_at_bracket(text: &str) -> Option<(&str, &str)>
    ensures value { option_map (λ cut. (cut.0.now, cut.1.now)) result ≡ cut_at_bracket text.now }
    ensures no_longer { IfSome result (λ cut. length cut.1.now ≤ length text.now) }
{
    text.split_once(']')
}

impl<'a> KeyText<'a> {
    /// The key at the front of a text, and the text after the key. There is no key where the text
    /// does not begin with a bracket. `None` where a bracket begins no valid key.
    #[tactic(auto, unfolding(crate::specs::Reading::key_at))]
    pub fn first(text: &'a str) -> Option<(KeyText<'a>, &'a str)>
        ensures value { option_map (λ first. (key_of first.0, first.1.now)) result ≡ key_at text.now }
        ensures no_longer { IfSome result (λ first. length first.1.now ≤ length text.now) }
    {
        if let Some(quoted) = text.strip_prefix("[\"") {
            return KeyText::first_quoted(quoted);
        }
        match text.strip_prefix("[") {
            Some(number) => KeyText::first_number(number),
            None => Some((KeyText::None, text)),
        }
    }

    /// The text key at the front, and the text after its closing quote and bracket.
    #[tactic(auto, unfolding(crate::specs::Reading::text_key_at))]
    fn first_quoted(text: &'a str) -> Option<(KeyText<'a>, &'a str)>
        ensures value { option_map (λ first. (key_of first.0, first.1.now)) result ≡ text_key_at text.now }
        ensures no_longer { IfSome result (λ first. length first.1.now ≤ length text.now) }
    {
        let remainder = after_text(text).strip_prefix("\"]")?;
        Some((KeyText::Quoted(text), remainder))
    }

    /// The number key at the front, and the text after its bracket.
    #[tactic(auto, unfolding(crate::specs::Reading::number_key_at))]
    fn first_number(text: &'a str) -> Option<(KeyText<'a>, &'a str)>
        ensures value { option_map (λ first. (key_of first.0, first.1.now)) result ≡ number_key_at text.now }
        ensures no_longer { IfSome result (λ first. length first.1.now ≤ length text.now) }
    {
        let (digits, remainder) = cut_at_bracket(text)?;
        let number = whole_number(digits)?;
        Some((KeyText::Number(number), remainder))
    }

    /// The instance key. `Err` where memory is refused.
    pub fn to_key(self, alloc: Global) -> Result<Key, AllocError>
        ensures { IfOk result (λ key. key ≡ key_of self.entry) }
    {
        match self {
            KeyText::None => Ok(Key::None),
            KeyText::Number(number) => Ok(Key::Number(number)),
            KeyText::Quoted(text) => {
                let content = unescaped(alloc, text)?;
                Ok(Key::Name(Text::new(alloc, content.as_str())?))
            }
        }
    }
}
