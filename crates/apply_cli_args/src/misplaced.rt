//! Options that do not go with the stated command.

use thiserror::Error;

/// The option that does not go with the stated command. The variants are tested in this order.
#[derive(Clone, Copy, Debug, Drop, Error, PartialEq, Eq)]
pub enum Misplaced {
    /// `--form applystream` is given with `--command` `plan`, `apply` or `destroy`.
    #[error("--command takes --form terraform")]
    Form,
    /// `--destroy` is given with `--command` `plan`, `apply` or `destroy`.
    #[error("--command takes no --destroy beside it")]
    Destroy,
    /// `--refresh` is given without `--command` `plan`, `apply` or `destroy`.
    #[error("--refresh takes --command plan, apply or destroy")]
    Refresh,
}
