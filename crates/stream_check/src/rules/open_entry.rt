//! Entries of what stands open.

ghost use Rattle.std.specs.Prelude.{◌≡◌};
ghost use Rattle.stream_check.specs.Unended.{kind_word};

/// The kinds of open entries, in the order of a report.
#[derive(Clone, Copy)]
pub enum OpenKind {
    Create,
    Update,
    Delete,
    Refresh,
    Failure,
}

impl OpenKind {
    /// The word for the kind.
    pub fn word(self) -> &'static str
        ensures { result.now ≡ kind_word self }
    {
        match self {
            OpenKind::Create => "create",
            OpenKind::Update => "update",
            OpenKind::Delete => "delete",
            OpenKind::Refresh => "refresh",
            OpenKind::Failure => "failure",
        }
    }
}

/// What stands open of one kind at one address.
#[derive(Clone, Copy)]
pub struct OpenEntry<'a> {
    /// The address of the object.
    pub address: &'a str,
    pub kind: OpenKind,
    /// The line on which it started, or failed, counted from 1.
    pub line: u64,
}
