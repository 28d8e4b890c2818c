//! Lookups in a tree, for arrays and flags.

ghost use Rattle.std.specs.Prelude.{◌≡◌, map, option_map};
ghost use Rattle.serde_json.specs.View.{items_view, view};
ghost use Rattle.apply_plan.specs.Plan.Element.{is_true};
ghost use Rattle.apply_prior.specs.Elements.{array_at, items_at};

use apply_json_tree::members::member;
use serde_json::Value;

/// The items of the array `name`. None where there is no such array.
pub fn items_at<'a>(object: &'a Value, name: &str) -> &'a [Value]
    ensures { map view result.now ≡ items_at name.now (view object.now) }
{
    match array_at(object, name) {
        Some(items) => items,
        None => &[],
    }
}

/// The array `name`.
pub fn array_at<'a>(object: &'a Value, name: &str) -> Option<&'a [Value]>
    ensures { option_map (λ items. items_view items.now) result ≡ array_at name.now (view object.now) }
{
    Some(member(object, name)?.as_array()?.as_slice())
}

/// Whether the value is `true`.
pub fn is_true(value: Option<&Value>) -> bool
    ensures { result ≡ is_true (option_map (λ value. view value.now) value.entry) }
{
    match value {
        Some(value) => value.as_bool().unwrap_or(false),
        None => false,
    }
}
