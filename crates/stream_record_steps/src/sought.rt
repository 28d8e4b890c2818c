//! Which steps under way a line may be of.

use apply_model::StepKind;

/// Which steps under way a line may be of.
#[derive(Clone, Copy)]
pub enum Sought {
    /// A step of this kind.
    Kind(StepKind),
    /// A step of this kind that began so many seconds before that second.
    Timely {
        kind: StepKind,
        seconds: u64,
        second: i64,
    },
    /// A delete that may have provisioners.
    ProvisionedDelete,
}
