//! The pace of an input whose reads do not have to be awaited.

use crate::pace::Pace;
use std::time::Duration;

/// The pace of an input whose reads do not have to be awaited.
#[derive(Clone, Copy, Debug, Drop)]
pub struct NoPace;

impl Pace for NoPace {
    /// Returns at once that a read does not have to wait.
    fn wait(&self, _at_most: Duration) -> bool {
        true
    }
}
