//! A take that failed.

use thiserror::Error;

/// Nothing was taken: the channel reported that the senders are gone, or 2^29 items were taken
/// before.
#[derive(Clone, Copy, Debug, Drop, Error, PartialEq, Eq)]
#[error("nothing more can be taken")]
pub struct Lost;
