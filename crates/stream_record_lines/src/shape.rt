//! Which members of a message are read. The parser skips all others.

ghost use Rattle.std.specs.Prelude.{◌≡◌};
ghost use Rattle.stream_record_lines.specs.Shape.{member_of_diagnostic, member_of_hook, member_of_message, message_selection, scalar_named};

use apply_json::is_text;
use apply_json_tree::Shape;

/// Which members of a value are read. Each shape is named after its value in a message
/// (Machine-Readable UI, "Message Types").
#[derive(Clone, Copy)]
pub enum MessageShape {
    /// Neither members nor items.
    Scalar,
    /// A message.
    Message,
    /// `hook`.
    Hook,
    /// `resource` of a hook.
    Resource,
    /// `changes`.
    Changes,
    /// `diagnostic`.
    Diagnostic,
}

impl Shape for MessageShape {
    ghost selection = { message_selection };

    fn member(self, name: &str) -> Option<MessageShape> {
        match self {
            MessageShape::Scalar => None,
            MessageShape::Message => member_of_message(name),
            MessageShape::Hook => member_of_hook(name),
            MessageShape::Resource => scalar_named("addr", name),
            MessageShape::Changes => scalar_named("operation", name),
            MessageShape::Diagnostic => member_of_diagnostic(name),
        }
    }

    fn item(self) -> MessageShape {
        MessageShape::Scalar
    }

    fn limit(self) -> Option<usize> {
        Some(0)
    }
}

/// The shape of a member without members of its own, if its name is `known`.
fn scalar_named(known: &str, name: &str) -> Option<MessageShape>
    ensures { result ≡ scalar_named known.now name.now }
{
    if is_text(name, known) {
        Some(MessageShape::Scalar)
    } else {
        None
    }
}

fn member_of_message(name: &str) -> Option<MessageShape>
    ensures { result ≡ member_of_message name.now }
{
    if is_text(name, "type") || is_text(name, "@timestamp") || is_text(name, "ui") {
        Some(MessageShape::Scalar)
    } else if is_text(name, "hook") {
        Some(MessageShape::Hook)
    } else if is_text(name, "changes") {
        Some(MessageShape::Changes)
    } else if is_text(name, "diagnostic") {
        Some(MessageShape::Diagnostic)
    } else {
        None
    }
}

fn member_of_hook(name: &str) -> Option<MessageShape>
    ensures { result ≡ member_of_hook name.now }
{
    if is_text(name, "resource") {
        Some(MessageShape::Resource)
    } else if is_text(name, "action")
        || is_text(name, "elapsed_seconds")
        || is_text(name, "provisioner")
        || is_text(name, "output")
        || is_text(name, "id_key")
        || is_text(name, "id_value")
    {
        Some(MessageShape::Scalar)
    } else {
        None
    }
}

fn member_of_diagnostic(name: &str) -> Option<MessageShape>
    ensures { result ≡ member_of_diagnostic name.now }
{
    if is_text(name, "severity")
        || is_text(name, "summary")
        || is_text(name, "detail")
        || is_text(name, "address")
    {
        Some(MessageShape::Scalar)
    } else {
        None
    }
}
