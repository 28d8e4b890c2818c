//! Objects that a stream tells of while a plan is made.

ghost use Rattle.std.specs.Prelude.{◌≡◌};
ghost use Rattle.apply_planning.specs.PlanningWork.{is_error};

use apply_model::{Change, Note, Severity, Text};

/// An object that is refreshed or read while a plan is made, and of which the stream tells.
#[derive(Debug, Drop)]
pub struct Told {
    /// The object, as a change without steps. One of mode `Managed` is refreshed, a data source is
    /// read.
    pub object: Change,
    /// Its name: that of its module without instance keys, `data.` of a data source, its type and
    /// its name.
    pub name: Text,
    /// The names that it depends on. It waits for each told object that has one of them, but not
    /// for those of its own name.
    pub depends_on: Vec<Text>,
    /// The id that the start of a refresh shows.
    pub id_before: Option<Text>,
    /// The id that its completion shows.
    pub id_after: Option<Text>,
    /// How long it takes, in seconds, at most 86,400.
    pub seconds: u32,
    /// Why it failed: an error, after which it is never done, or of a read also a warning. `None`
    /// where it ends well.
    pub failure: Option<Note>,
}

impl Told {
    /// Whether it fails with an error, and is never done.
    pub fn fails(&self) -> bool
        ensures { result ≡ is_error self.now.failure }
    {
        match &self.failure {
            Some(note) => note.severity == Severity::Error,
            None => false,
        }
    }
}
