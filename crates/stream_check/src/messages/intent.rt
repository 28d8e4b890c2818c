//! What a plan intends for an object.

ghost use Rattle.std.specs.Prelude.{◌≡◌};
ghost use Rattle.stream_check.specs.Intents.{creates};
ghost use Rattle.stream_check.specs.Message.{intent_named};

use apply_json::is_text;

/// What is planned for an object (`change.action`).
#[derive(Clone, Copy)]
pub enum Intent {
    Create,
    Update,
    Delete,
    Replace,
    /// An intent that no total counts.
    Nothing,
}

impl Intent {
    /// Returns the intent that the word names.
    pub fn named(word: &str) -> Intent
        ensures { result ≡ intent_named word.now }
    {
        if is_text(word, "create") {
            Intent::Create
        } else if is_text(word, "update") {
            Intent::Update
        } else if is_text(word, "delete") {
            Intent::Delete
        } else if is_text(word, "replace") {
            Intent::Replace
        } else {
            Intent::Nothing
        }
    }

    /// Whether an object is created, by itself or in place of another.
    pub fn creates(self) -> bool
        ensures { result ≡ creates self }
    {
        match self {
            Intent::Create | Intent::Replace => true,
            Intent::Update | Intent::Delete | Intent::Nothing => false,
        }
    }
}
