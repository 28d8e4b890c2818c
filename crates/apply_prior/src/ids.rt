//! Ids in a tree.

ghost use Rattle.std.specs.Prelude.{◌≡◌, option_map};
ghost use Rattle.std.specs.Option.{option_copied};
ghost use Rattle.serde_json.specs.View.{view};
ghost use Rattle.apply_plan.specs.Plan.Element.{hides_id};
ghost use Rattle.apply_prior.specs.Elements.{id_of};

use crate::lookups::is_true;
use apply_json_tree::members::{member, non_empty_text_member};
use serde_json::Value;

/// The id in `values`. `None` means that there is none, or that `sensitive` hides it.
pub fn id_of<'a>(values: Option<&'a Value>, sensitive: Option<&'a Value>) -> Option<&'a str>
    ensures { option_copied result ≡ id_of (option_map (λ value. view value.now) values.entry)
        (option_map (λ value. view value.now) sensitive.entry) }
{
    if hides_id(sensitive) {
        None
    } else {
        non_empty_text_member(values?, "id")
    }
}

/// Whether the value hides the id: it is `true`, or an object whose `id` is `true`.
fn hides_id(sensitive: Option<&Value>) -> bool
    ensures { result ≡ hides_id (option_map (λ value. view value.now) sensitive.entry) }
{
    match sensitive {
        Some(value) => is_true(Some(value)) || is_true(member(value, "id")),
        None => false,
    }
}
