//! The pace of an input that is read ahead.

use crate::exchange::Exchange;
use crate::pace::Pace;
use std::sync::Wait;
use std::time::{Clock, Duration};

/// The pace of an input that [`read_ahead`](crate::read_ahead) reads ahead. No clause states when a
/// wait ends.
#[derive(Drop)]
pub struct AheadPace<'a, T: Wait + Clock> {
    pub(crate) rt: &'a T,
    pub(crate) exchange: &'a Exchange,
}

impl<'a, T: Wait + Clock> Pace for AheadPace<'a, T> {
    /// Waits for bytes, an error or the end. Like a read, the first wait lets the thread read the
    /// input. A clock that can't be read ends the wait at once.
    fn wait(&self, at_most: Duration) -> bool {
        self.exchange.wait(self.rt, at_most)
    }
}
