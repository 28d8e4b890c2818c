//! What a step does to its object.

ghost use Rattle.std.specs.Prelude.{◌≡◌};
ghost use Rattle.stream_check.specs.Words.{action_named, action_word};

use apply_json::is_text;

/// What a step does to its object (`hook.action`). No word names a refresh: its messages have types
/// of their own.
#[derive(Clone, Copy)]
pub enum Action {
    Create,
    Update,
    Delete,
    Read,
    Refresh,
}

impl Action {
    /// Returns the action that the word names.
    pub fn named(word: &str) -> Option<Action>
        ensures { result ≡ action_named word.now }
    {
        if is_text(word, "create") {
            Some(Action::Create)
        } else if is_text(word, "update") {
            Some(Action::Update)
        } else if is_text(word, "delete") {
            Some(Action::Delete)
        } else if is_text(word, "read") {
            Some(Action::Read)
        } else {
            None
        }
    }

    /// The word that names the action.
    pub fn word(self) -> &'static str
        ensures { result.now ≡ action_word self }
    {
        match self {
            Action::Create => "create",
            Action::Update => "update",
            Action::Delete => "delete",
            Action::Read => "read",
            Action::Refresh => "refresh",
        }
    }
}
