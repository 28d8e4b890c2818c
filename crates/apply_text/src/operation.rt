//! The purpose of an apply: apply or destroy.

ghost use Rattle.std.specs.Prelude.{◌≡◌};
ghost use Rattle.apply_text.specs.Objects.{operation_word};

/// The purpose of an apply, as the summary names it (Machine-Readable UI, "Change Summary").
#[derive(Clone, Copy, Debug, PartialEq, Eq)]
pub enum Operation {
    /// Makes the planned changes.
    Apply,
    /// Destroys all objects.
    Destroy,
}

impl Operation {
    /// The value of the summary's member `operation`.
    pub fn word(self) -> &'static str
        ensures { result.now ≡ operation_word self }
    {
        match self {
            Operation::Apply => "apply",
            Operation::Destroy => "destroy",
        }
    }
}
