//! Why a run failed.

use thiserror::Error;

/// Why a run failed.
#[derive(Clone, Copy, Debug, Drop, Error, PartialEq, Eq)]
pub enum Why {
    /// Events were lost between the workers and the collector: a take failed, or a send came back.
    /// No proof rules this out. Each event that was taken is proved to be one of the plan.
    #[error("the event bus failed")]
    Bus,
    /// A thread was refused. Nothing was taken or written. No worker has begun either, but no
    /// clause states that.
    #[error("a worker could not be started")]
    Workers,
    /// Memory was refused: before the threads started, for a line, or to store a diagnostic.
    #[error("out of memory")]
    Memory,
    /// A write to the sink failed.
    #[error("the output could not be written")]
    Write,
}
