//! Owned texts.
//!
//! Every `Err` means that memory was refused.

ghost use Rattle.std.specs.Prelude.{◌≡◌, IfOk};
ghost use Rattle.std.specs.Option.{option_copied};

use std::alloc::{AllocError, Global};
use std::marker::Model;

/// An owned text. Contracts see its bytes in UTF-8.
#[derive(Debug, Drop)]
pub struct Text {
    inner: String,
}

impl Model for Text {
    ghost use Rattle.std.specs.Prelude.{List, ℕ, string_bytes};

    ghost Value = { List ℕ };

    ghost view = { λ text. string_bytes text.inner };
}

impl Text {
    /// A copy of the text. `Err` where memory is refused.
    pub fn new(alloc: Global, text: &str) -> Result<Text, AllocError>
        ensures { IfOk result (λ copy. copy ≡ text.now) }
    {
        Ok(Text {
            inner: String::from_str(alloc, text)?,
        })
    }

    /// A copy of the text, if there is one. `Err` where memory is refused.
    pub fn of_option(alloc: Global, text: Option<&str>) -> Result<Option<Text>, AllocError>
        ensures { IfOk result (λ copy. copy ≡ option_copied text.entry) }
    {
        match text {
            Some(text) => Ok(Some(Text::new(alloc, text)?)),
            None => Ok(None),
        }
    }

    /// The text, borrowed.
    pub fn as_str(&self) -> &str
        ensures { result.now ≡ self.now }
    {
        self.inner.as_str()
    }
}
