ghost use Rattle.std.specs.Prelude.{◌≡◌};
ghost use Rattle.apply_model.specs.Plan.StepKind.{is_kind};

/// The action of one step on the real object.
///
/// A hook message names these actions (Machine-Readable UI, "Operation Messages", `action`).
#[derive(Clone, Copy, Debug, PartialEq, Eq, Hash)]
pub enum StepKind {
    /// Makes the object.
    Create,
    /// Changes the object in place.
    Update,
    /// Destroys the object.
    Delete,
    /// Reads a data source.
    Read,
}

impl StepKind {
    /// Whether the step destroys an object.
    pub fn is_delete(self) -> bool
        ensures { result ≡ is_kind StepKind.Delete self }
    {
        match self {
            StepKind::Delete => true,
            StepKind::Create | StepKind::Update | StepKind::Read => false,
        }
    }

    /// Whether the step creates an object.
    pub fn is_create(self) -> bool
        ensures { result ≡ is_kind StepKind.Create self }
    {
        match self {
            StepKind::Create => true,
            StepKind::Update | StepKind::Delete | StepKind::Read => false,
        }
    }
}
