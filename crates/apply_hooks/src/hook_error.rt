//! Why a registry refuses a hook.

use thiserror::Error;

/// Why a registry refuses a hook. The variants are tested in this order.
#[derive(Clone, Copy, Debug, Drop, Error, PartialEq, Eq)]
pub enum HookError {
    /// The registry has 32 hooks already.
    #[error("more than 32 hooks")]
    Full,
    /// Memory was refused.
    #[error("out of memory")]
    Memory,
}
