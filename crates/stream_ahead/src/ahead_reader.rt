//! The reader of an input that is read ahead.

use crate::exchange::Exchange;
use std::io;
use std::io::Read;
use std::sync::Wait;

/// The reader of an input that [`read_ahead`](crate::read_ahead) reads ahead.
///
/// It gives what the reads of the input gave, in their order: bytes, errors and the end. A read
/// after an error reads the input once more, so an interrupted read can be repeated. After the end,
/// the reader stays at the end.
///
/// No clause states this, since the bytes come from another thread. The clauses of the handover
/// state it for one chunk, and tests show it for a whole input.
#[derive(Drop)]
pub struct AheadReader<'a, T: Wait> {
    pub(crate) rt: &'a T,
    pub(crate) exchange: &'a Exchange,
}

impl<'a, T: Wait> Read for AheadReader<'a, T> {
    /// Waits until the thread has read bytes, an error or the end. A read into an empty buffer does
    /// not wait.
    fn read(&mut self, buf: &mut [u8]) -> io::Result<usize> {
        if buf.is_empty() {
            return Ok(0);
        }
        self.exchange.take(self.rt, buf)
    }
}
