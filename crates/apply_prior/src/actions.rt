//! Action lists in a tree (JSON Output Format, "Change Representation", `actions`).

ghost use Rattle.std.specs.Prelude.{◌≡◌};
ghost use Rattle.serde_json.specs.View.{items_view, view};
ghost use Rattle.apply_prior.specs.Elements.{action_alone, action_listed, action_of, action_together};

use crate::lookups::array_at;
use apply_json_tree::members::is_text;
use apply_model::Action;
use serde_json::Value;

/// The action by the member `actions`. `None` means that it is not one of the eight valid lists.
pub fn action_of(change: &Value) -> Option<Action>
    ensures { result ≡ action_of (view change.now) }
{
    listed(array_at(change, "actions")?)
}

fn listed(words: &[Value]) -> Option<Action>
    ensures { result ≡ action_listed (items_view words.now) }
{
    match words {
        [word] => alone(word),
        [first, second] => together(first, second),
        _ => None,
    }
}

fn alone(word: &Value) -> Option<Action>
    ensures { result ≡ action_alone (view word.now) }
{
    if is_text(word, "no-op") {
        Some(Action::NoOp)
    } else if is_text(word, "create") {
        Some(Action::Create)
    } else if is_text(word, "read") {
        Some(Action::Read)
    } else if is_text(word, "update") {
        Some(Action::Update)
    } else if is_text(word, "delete") {
        Some(Action::Delete)
    } else if is_text(word, "forget") {
        Some(Action::Forget)
    } else {
        None
    }
}

fn together(first: &Value, second: &Value) -> Option<Action>
    ensures { result ≡ action_together (view first.now) (view second.now) }
{
    if is_text(first, "delete") && is_text(second, "create") {
        Some(Action::DeleteThenCreate)
    } else if is_text(first, "create") && is_text(second, "delete") {
        Some(Action::CreateThenDelete)
    } else {
        None
    }
}
