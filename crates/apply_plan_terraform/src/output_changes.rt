//! The planned changes of outputs. Their members are JSON texts.

ghost use Rattle.std.specs.Prelude.{◌≡◌, option_map};
ghost use Rattle.std.specs.Option.{option_copied};
ghost use Rattle.serde_json.specs.View.{view};
ghost use Rattle.apply_plan_terraform.specs.RawOutput as specs;

use crate::raw_output::{equals_word, is_kind};
use serde_json::Value;

/// The planned change of output `name`.
pub fn change_of<'a>(changes: Option<&'a Value>, name: &str) -> Option<&'a Value>
    ensures { option_map (λ value. view value.now) result
        ≡ specs.change_of (option_map (λ value. view value.now) changes.entry) name.now }
{
    changes?.get(name)
}

/// A member that is stored as JSON text.
fn text_at<'a>(object: &'a Value, name: &str) -> Option<&'a str>
    ensures { option_copied result ≡ specs.text_at name.now (view object.now) }
{
    object.get(name)?.as_str()
}

/// A member that is stored as JSON text. `None` when there is no object.
fn text_in<'a>(object: Option<&'a Value>, name: &str) -> Option<&'a str>
    ensures { option_copied result
        ≡ specs.text_in name.now (option_map (λ value. view value.now) object.entry) }
{
    text_at(object?, name)
}

/// Whether the value of the output is unknown before the apply.
fn is_unknown(change: Option<&Value>) -> bool
    ensures { result ≡ specs.is_unknown (option_map (λ value. view value.now) change.entry) }
{
    let unknown = text_in(change, "after_unknown");
    unknown.is_some() && !(equals_word(unknown, "null") || equals_word(unknown, "false"))
}

/// Whether the plan deletes the output.
pub fn is_deleted(change: Option<&Value>) -> bool
    ensures { result ≡ specs.is_deleted (option_map (λ value. view value.now) change.entry) }
{
    equals_word(text_in(change, "actions"), "[\"delete\"]")
}

/// Whether the plan changes the output.
pub fn is_changed(change: Option<&Value>) -> bool
    ensures { result ≡ specs.is_changed (option_map (λ value. view value.now) change.entry) }
{
    change.is_some() && !equals_word(text_of(change), "null")
}

/// The text, when the value is one.
pub fn text_of(value: Option<&Value>) -> Option<&str>
    ensures { option_copied result ≡ specs.as_text (option_map (λ value. view value.now) value.entry) }
{
    value?.as_str()
}

/// Whether a stream shows the plan's own output `name`, of type `kind`. It does when the type is
/// known, the value is known before the apply, and the plan does not delete the output.
pub fn is_written(changes: Option<&Value>, name: &str, kind: Option<&str>) -> bool
    ensures { result ≡ specs.is_written_with (option_map (λ value. view value.now) changes.entry)
        name.now (option_copied kind.entry) }
{
    let change = change_of(changes, name);
    is_kind(kind) && !(is_unknown(change) || is_deleted(change))
}
