//! An event that could not be sent.

use apply_events::Event;
use thiserror::Error;

/// An event that could not be sent, since the channel reported that its receiver is gone.
#[derive(Clone, Copy, Debug, Drop, Error, PartialEq, Eq)]
#[error("the receiving has ended")]
pub struct Undelivered(pub Event);
