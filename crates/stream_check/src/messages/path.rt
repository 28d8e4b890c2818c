//! Paths of members in a message.

ghost use Rattle.std.specs.Prelude.{◌≡◌};
ghost use Rattle.stream_check.specs.Malformed.{path_text};

use std::fmt;

/// The members of messages that are read, and the objects that hold them (Machine-Readable UI,
/// "Message Types").
#[derive(Clone, Copy, PartialEq, Eq)]
pub enum Path {
    Hook,
    Resource,
    Address,
    Action,
    Seconds,
    Change,
    ChangeAction,
    Changes,
    Operation,
    Added,
    Changed,
    Removed,
    Diagnostic,
    Severity,
}

impl Path {
    /// The names from the message down to the member, joined with dots.
    pub fn text(self) -> &'static str
        ensures { result.now ≡ path_text self }
    {
        match self {
            Path::Hook => "hook",
            Path::Resource => "hook.resource",
            Path::Address => "hook.resource.addr",
            Path::Action => "hook.action",
            Path::Seconds => "hook.elapsed_seconds",
            Path::Change => "change",
            Path::ChangeAction => "change.action",
            Path::Changes => "changes",
            Path::Operation => "changes.operation",
            Path::Added => "changes.add",
            Path::Changed => "changes.change",
            Path::Removed => "changes.remove",
            Path::Diagnostic => "diagnostic",
            Path::Severity => "diagnostic.severity",
        }
    }
}

impl fmt::Display for Path {
    fn fmt<W: fmt::Write>(&self, f: &mut fmt::Formatter<W>) -> fmt::Result {
        f.write_str(self.text())
    }
}
