//! Lookups in a tree.

ghost use Rattle.std.specs.Prelude.{◌≡◌, option_map};
ghost use Rattle.std.specs.Option.{option_copied};
ghost use Rattle.serde_json.specs.View.{view, items_view};
ghost use Rattle.apply_json.specs.Tree.{is_word, items_or_empty, member_of, non_empty_text_of, text_of, text_or};

use apply_json::non_empty;
use serde_json::Value;

/// The member `name`. `null` counts as absent, and only objects have members.
pub fn member<'a>(object: &'a Value, name: &str) -> Option<&'a Value>
    ensures { option_map (λ value. view value.now) result ≡ member_of name.now (view object.now) }
{
    let value = object.get(name)?;
    if value.is_null() { None } else { Some(value) }
}

/// The member `name`, or `None` if it is not a text.
pub fn text_member<'a>(object: &'a Value, name: &str) -> Option<&'a str>
    ensures { option_copied result ≡ text_of name.now (view object.now) }
{
    member(object, name)?.as_str()
}

/// The member `name`, or `absent` if there is none. `None` means a member that is not a text.
pub fn text_member_or<'a>(object: &'a Value, name: &str, absent: &'a str) -> Option<&'a str>
    ensures { option_copied result ≡ text_or absent.now (member_of name.now (view object.now)) }
{
    match member(object, name) {
        Some(value) => value.as_str(),
        None => Some(absent),
    }
}

/// The member `name`, or `None` if it is not a text or is empty.
pub fn non_empty_text_member<'a>(object: &'a Value, name: &str) -> Option<&'a str>
    ensures { option_copied result ≡ non_empty_text_of name.now (view object.now) }
{
    non_empty(text_member(object, name)?)
}

/// The items of an array, or no items if there is no value. `None` means a value of another type.
pub fn array_or_empty(value: Option<&Value>) -> Option<&[Value]>
    ensures { option_map (λ items. items_view items.now) result
        ≡ items_or_empty (option_map (λ value. view value.now) value.entry) }
{
    match value {
        Some(value) => Some(value.as_array()?.as_slice()),
        None => Some(&[]),
    }
}

/// Whether the value is the text `word`.
pub fn is_text(value: &Value, word: &str) -> bool
    ensures { result ≡ is_word word.now (view value.now) }
{
    match value.as_str() {
        Some(text) => text == word,
        None => false,
    }
}
