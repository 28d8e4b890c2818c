//! Members of a message, by its tree. A member with another type counts as missing.

ghost use Rattle.std.specs.Prelude.{◌≡◌};
ghost use Rattle.std.specs.Option.{option_copied};
ghost use Rattle.serde_json.specs.View.{view};
ghost use Rattle.stream_message.specs.Members.{address_of, changes_text, diagnostic_text, hook_count, hook_text, kind_of, time_of};

use apply_json_tree::members::{member, text_member};
use serde_json::Value;
use stream_message::{Kind, instant_of};

/// The kind of the message. `None` if the tree has no text `type`: it is no message.
pub fn kind_of(tree: &Value) -> Option<Kind>
    ensures { result ≡ kind_of (view tree.now) }
{
    match text_member(tree, "type") {
        Some(name) => Some(Kind::named(name)),
        None => None,
    }
}

/// The instant in `@timestamp`, in microseconds since the start of 1970.
pub fn time_of(tree: &Value) -> Option<i64>
    ensures { result ≡ time_of (view tree.now) }
{
    instant_of(text_member(tree, "@timestamp")?)
}

/// The address of the resource that `hook` is about.
pub fn hook_address(tree: &Value) -> Option<&str>
    ensures { option_copied result ≡ address_of (view tree.now) }
{
    let hook = member(tree, "hook")?;
    let resource = member(hook, "resource")?;
    text_member(resource, "addr")
}

/// A text of `hook`.
pub fn hook_text<'a>(tree: &'a Value, name: &str) -> Option<&'a str>
    ensures { option_copied result ≡ hook_text name.now (view tree.now) }
{
    text_member(member(tree, "hook")?, name)
}

/// A whole number of `hook`.
pub fn hook_count(tree: &Value, name: &str) -> Option<u64>
    ensures { result ≡ hook_count name.now (view tree.now) }
{
    let hook = member(tree, "hook")?;
    member(hook, name)?.as_u64()
}

/// A text of `changes`.
pub fn changes_text<'a>(tree: &'a Value, name: &str) -> Option<&'a str>
    ensures { option_copied result ≡ changes_text name.now (view tree.now) }
{
    text_member(member(tree, "changes")?, name)
}

/// A text of `diagnostic`.
pub fn diagnostic_text<'a>(tree: &'a Value, name: &str) -> Option<&'a str>
    ensures { option_copied result ≡ diagnostic_text name.now (view tree.now) }
{
    text_member(member(tree, "diagnostic")?, name)
}
