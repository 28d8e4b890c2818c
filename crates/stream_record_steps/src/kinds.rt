//! Kinds of steps.

ghost use Rattle.std.specs.Prelude.{◌≡◌};
ghost use Rattle.apply_model.specs.Plan.StepKind.{is_kind};
ghost use Rattle.stream_record_steps.specs.StrayKinds.{has_kind, no_kinds, with_kind};

use apply_model::StepKind;

/// Whether two kinds are the same.
pub fn is_kind(kind: StepKind, other: StepKind) -> bool
    ensures { result ≡ is_kind kind other }
{
    kind == other
}

/// A set of kinds.
#[derive(Clone, Copy)]
pub struct Kinds {
    creates: bool,
    updates: bool,
    deletes: bool,
    reads: bool,
}

/// No kinds.
pub fn no_kinds() -> Kinds
    ensures { result ≡ no_kinds }
{
    Kinds {
        creates: false,
        updates: false,
        deletes: false,
        reads: false,
    }
}

impl Kinds {
    /// Whether the kind is among these.
    pub fn has(self, kind: StepKind) -> bool
        ensures { result ≡ has_kind self kind }
    {
        match kind {
            StepKind::Create => self.creates,
            StepKind::Update => self.updates,
            StepKind::Delete => self.deletes,
            StepKind::Read => self.reads,
        }
    }

    /// These kinds, and one more.
    pub fn with(self, kind: StepKind) -> Kinds
        ensures { result ≡ with_kind kind self }
    {
        Kinds {
            creates: kind.is_create() || self.creates,
            updates: is_kind(StepKind::Update, kind) || self.updates,
            deletes: kind.is_delete() || self.deletes,
            reads: is_kind(StepKind::Read, kind) || self.reads,
        }
    }
}
