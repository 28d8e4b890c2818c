//! Instance keys in a tree.

ghost use Rattle.std.specs.Prelude.{◌≡◌, IfOk, option_map};
ghost use Rattle.serde_json.specs.View.{view};
ghost use Rattle.apply_plan.specs.Plan.Element.{key_of};
ghost use Rattle.apply_prior.specs.Views.{index_view};

use apply_model::{Key, Text};
use serde_json::Value;
use std::alloc::{AllocError, Global};

/// An instance key: the index of `count`, or the key of `for_each`.
#[derive(Clone, Copy)]
pub enum Index<'a> {
    /// There is neither.
    None,
    /// The index of `count`.
    Number(i64),
    /// The key of `for_each`.
    Name(&'a str),
}

impl<'a> Index<'a> {
    /// The key, by the member `index`. `None` means that it is neither a text nor a whole number
    /// that fits `i64`.
    pub fn of(index: Option<&'a Value>) -> Option<Index<'a>>
        ensures { option_map index_view result ≡ key_of (option_map (λ value. view value.now) index.entry) }
    {
        let Some(index) = index else {
            return Some(Index::None);
        };
        match index.as_str() {
            Some(name) => Some(Index::Name(name)),
            None => Some(Index::Number(index.as_i64()?)),
        }
    }

    /// The key of a change.
    pub fn of_key(key: &'a Key) -> Index<'a>
        ensures { index_view result ≡ key.now }
    {
        match key {
            Key::None => Index::None,
            Key::Number(number) => Index::Number(*number),
            Key::Name(name) => Index::Name(name.as_str()),
        }
    }

    /// The key, with a copy of its text. `Err` means that memory was refused.
    pub fn copied(self, alloc: Global) -> Result<Key, AllocError>
        ensures { IfOk result (λ key. key ≡ index_view self.entry) }
    {
        Ok(match self {
            Index::None => Key::None,
            Index::Number(number) => Key::Number(number),
            Index::Name(name) => Key::Name(Text::new(alloc, name)?),
        })
    }
}
