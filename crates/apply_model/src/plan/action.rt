//! The action of a planned change.

ghost use Rattle.std.specs.Prelude.{◌≡◌};
ghost use Rattle.apply_model.specs.Plan.Action.{steps_of_action};

use crate::plan::step_kind::StepKind;

/// The action of a planned change (JSON Output Format, "Change Representation", `actions`).
#[derive(Clone, Copy, Debug, PartialEq, Eq)]
pub enum Action {
    /// Nothing is done.
    NoOp,
    /// The object is created.
    Create,
    /// A data source is read.
    Read,
    /// The object is changed in place.
    Update,
    /// The object is destroyed.
    Delete,
    /// A replacement that destroys the old object first.
    DeleteThenCreate,
    /// A replacement that creates the new object first.
    CreateThenDelete,
    /// The object stays, and Terraform stops tracking it.
    Forget,
}

impl Action {
    /// The steps, in the order in which they are applied.
    pub fn steps(self) -> &'static [StepKind]
        ensures { result.now ≡ steps_of_action self }
    {
        match self {
            Action::NoOp | Action::Forget => &[],
            Action::Create => &[StepKind::Create],
            Action::Read => &[StepKind::Read],
            Action::Update => &[StepKind::Update],
            Action::Delete => &[StepKind::Delete],
            Action::DeleteThenCreate => &[StepKind::Delete, StepKind::Create],
            Action::CreateThenDelete => &[StepKind::Create, StepKind::Delete],
        }
    }
}
