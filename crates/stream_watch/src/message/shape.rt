//! Which members of a message are read. The parser skips all others.

ghost use Rattle.std.specs.Prelude.{◌≡◌};
ghost use Rattle.stream_watch.specs.Shape.{member_of_change, member_of_changes, member_of_diagnostic, member_of_hook, member_of_message, member_of_snippet, member_shape, message_selection, scalar_named};

use apply_json::is_text;
use apply_json_tree::Shape;

/// Which members and items of a value are read. Each shape is named after its value in a message
/// (Machine-Readable UI, "Message Types").
#[derive(Clone, Copy)]
pub enum MessageShape {
    /// Neither members nor items.
    Scalar,
    /// A message. Of its `outputs` nothing is read but which kind of value they are.
    Message,
    /// `hook`.
    Hook,
    /// `resource` of a hook.
    HookResource,
    /// `change`.
    Change,
    /// `resource` or `previous_resource` of a change.
    Resource,
    /// `importing` of a change.
    Importing,
    /// `changes`.
    Changes,
    /// `diagnostic`.
    Diagnostic,
    /// `range` of a diagnostic.
    Range,
    /// `start` of a range.
    Start,
    /// `snippet` of a diagnostic.
    Snippet,
    /// `values` of a snippet.
    Expressions,
    /// An element of `values`.
    Expression,
    /// `function_call` of a snippet.
    FunctionCall,
    /// `signature` of a function call.
    Signature,
    /// `params` of a signature.
    Parameters,
    /// An element of `params`, or `variadic_param` of a signature.
    Parameter,
}

impl Shape for MessageShape {
    ghost selection = { message_selection };

    fn member(self, name: &str) -> Option<MessageShape> {
        match self {
            MessageShape::Message => member_of_message(name),
            MessageShape::Hook => member_of_hook(name),
            MessageShape::HookResource => member_of_hook_resource(name),
            MessageShape::Change => member_of_change(name),
            MessageShape::Resource => scalar_named("addr", name),
            MessageShape::Importing => scalar_named("id", name),
            MessageShape::Changes => member_of_changes(name),
            MessageShape::Diagnostic => member_of_diagnostic(name),
            MessageShape::Range => member_of_range(name),
            MessageShape::Start => scalar_named("line", name),
            MessageShape::Snippet => member_of_snippet(name),
            MessageShape::Expression => member_of_expression(name),
            MessageShape::FunctionCall => member_of_call(name),
            MessageShape::Signature => member_of_signature(name),
            MessageShape::Parameter => scalar_named("name", name),
            MessageShape::Scalar | MessageShape::Expressions | MessageShape::Parameters => None,
        }
    }

    fn item(self) -> MessageShape {
        match self {
            MessageShape::Expressions => MessageShape::Expression,
            MessageShape::Parameters => MessageShape::Parameter,
            _ => MessageShape::Scalar,
        }
    }

    fn limit(self) -> Option<usize> {
        match self {
            MessageShape::Expressions | MessageShape::Parameters => None,
            _ => Some(0),
        }
    }
}

/// The shape of a member without members of its own, if its name is `known`.
fn scalar_named(known: &str, name: &str) -> Option<MessageShape>
    ensures { result ≡ scalar_named known.now name.now }
{
    if is_text(name, known) {
        Some(MessageShape::Scalar)
    } else {
        None
    }
}

fn member_of_message(name: &str) -> Option<MessageShape>
    ensures { result ≡ member_of_message name.now }
{
    if is_text(name, "type")
        || is_text(name, "@timestamp")
        || is_text(name, "@message")
        || is_text(name, "terraform")
        || is_text(name, "outputs")
    {
        Some(MessageShape::Scalar)
    } else if is_text(name, "hook") {
        Some(MessageShape::Hook)
    } else if is_text(name, "change") {
        Some(MessageShape::Change)
    } else if is_text(name, "changes") {
        Some(MessageShape::Changes)
    } else if is_text(name, "diagnostic") {
        Some(MessageShape::Diagnostic)
    } else {
        None
    }
}

fn member_of_hook(name: &str) -> Option<MessageShape>
    ensures { result ≡ member_of_hook name.now }
{
    if is_text(name, "resource") {
        Some(MessageShape::HookResource)
    } else if is_text(name, "action")
        || is_text(name, "elapsed_seconds")
        || is_text(name, "provisioner")
        || is_text(name, "output")
        || is_text(name, "id_key")
        || is_text(name, "id_value")
    {
        Some(MessageShape::Scalar)
    } else {
        None
    }
}

fn member_of_hook_resource(name: &str) -> Option<MessageShape>
    ensures { result ≡ member_shape MessageShape.HookResource name.now }
{
    if is_text(name, "addr") || is_text(name, "resource_type") {
        Some(MessageShape::Scalar)
    } else {
        None
    }
}

fn member_of_change(name: &str) -> Option<MessageShape>
    ensures { result ≡ member_of_change name.now }
{
    if is_text(name, "action") || is_text(name, "reason") {
        Some(MessageShape::Scalar)
    } else if is_text(name, "resource") || is_text(name, "previous_resource") {
        Some(MessageShape::Resource)
    } else if is_text(name, "importing") {
        Some(MessageShape::Importing)
    } else {
        None
    }
}

fn member_of_changes(name: &str) -> Option<MessageShape>
    ensures { result ≡ member_of_changes name.now }
{
    if is_text(name, "operation")
        || is_text(name, "add")
        || is_text(name, "change")
        || is_text(name, "remove")
        || is_text(name, "import")
    {
        Some(MessageShape::Scalar)
    } else {
        None
    }
}

fn member_of_diagnostic(name: &str) -> Option<MessageShape>
    ensures { result ≡ member_of_diagnostic name.now }
{
    if is_text(name, "severity")
        || is_text(name, "summary")
        || is_text(name, "detail")
        || is_text(name, "address")
    {
        Some(MessageShape::Scalar)
    } else if is_text(name, "range") {
        Some(MessageShape::Range)
    } else if is_text(name, "snippet") {
        Some(MessageShape::Snippet)
    } else {
        None
    }
}

fn member_of_range(name: &str) -> Option<MessageShape>
    ensures { result ≡ member_shape MessageShape.Range name.now }
{
    if is_text(name, "filename") {
        Some(MessageShape::Scalar)
    } else if is_text(name, "start") {
        Some(MessageShape::Start)
    } else {
        None
    }
}

fn member_of_snippet(name: &str) -> Option<MessageShape>
    ensures { result ≡ member_of_snippet name.now }
{
    if is_text(name, "context") || is_text(name, "code") || is_text(name, "start_line") {
        Some(MessageShape::Scalar)
    } else if is_text(name, "values") {
        Some(MessageShape::Expressions)
    } else if is_text(name, "function_call") {
        Some(MessageShape::FunctionCall)
    } else {
        None
    }
}

fn member_of_expression(name: &str) -> Option<MessageShape>
    ensures { result ≡ member_shape MessageShape.Expression name.now }
{
    if is_text(name, "traversal") || is_text(name, "statement") {
        Some(MessageShape::Scalar)
    } else {
        None
    }
}

fn member_of_call(name: &str) -> Option<MessageShape>
    ensures { result ≡ member_shape MessageShape.FunctionCall name.now }
{
    if is_text(name, "called_as") {
        Some(MessageShape::Scalar)
    } else if is_text(name, "signature") {
        Some(MessageShape::Signature)
    } else {
        None
    }
}

fn member_of_signature(name: &str) -> Option<MessageShape>
    ensures { result ≡ member_shape MessageShape.Signature name.now }
{
    if is_text(name, "params") {
        Some(MessageShape::Parameters)
    } else if is_text(name, "variadic_param") {
        Some(MessageShape::Parameter)
    } else {
        None
    }
}
