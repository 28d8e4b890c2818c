//! The stages of a handover.

use std::io;

/// The stage of a handover. The thread reads the input only while a read is wanted.
#[derive(Clone, Copy)]
pub(crate) enum Stage {
    /// No read was asked for.
    Idle,
    /// A read is wanted.
    Wanted,
    /// Bytes can be taken.
    Bytes,
    /// A read failed with this error.
    Failed(io::Error),
    /// The input is at its end.
    End,
    /// Nothing more will be taken.
    Closed,
}
