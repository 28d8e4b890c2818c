//! The handover between the two threads.

ghost use Rattle.std.specs.Prelude.{◌≡◌, ◌<◌, ◌≤◌, length, vec_len, IfOk};
ghost use Rattle.std.specs.Io.{ReadsAtMost};

use crate::handover::{CHUNK_LEN, Handover};
use crate::stage::Stage;
use std::io;
use std::sync::{Condvar, CondvarTimeouts, Mutex, MutexGuard, Wait};
use std::time::{Clock, Duration};

/// The handover, and a signal that it has changed. What a call does to the handover, the clauses of
/// [`Handover`] state: no clause can name a value under a lock.
#[derive(Drop)]
pub(crate) struct Exchange {
    handover: Mutex<Handover>,
    changed: Condvar,
}

impl Exchange {
    /// Makes an exchange with one of the two buffers. The reading thread has the other.
    pub fn new(bytes: Vec<u8>) -> Exchange
        requires { vec_len bytes ≡ CHUNK_LEN }
    {
        Exchange {
            handover: Mutex::new(Handover::new(bytes)),
            changed: Condvar::new(),
        }
    }

    /// Waits until a read returns at once, but at most so long. Returns whether a read does.
    pub fn wait<T: Wait + Clock>(&self, rt: &T, at_most: Duration) -> bool {
        let (_, outcome) = self
            .changed
            .wait_timeout_while(rt, self.ask(rt), at_most, |handover| !handover.is_ready());
        !outcome.timed_out()
    }

    /// Waits until a read returns at once, and takes what it gives.
    pub fn take<T: Wait>(&self, rt: &T, buf: &mut [u8]) -> io::Result<usize>
        requires { 0 < length buf.old }
        ensures { ReadsAtMost result buf.new }
    {
        let mut handover = self
            .changed
            .wait_while(rt, self.ask(rt), |handover| !handover.is_ready());
        let taken = handover.take(buf);
        drop(handover);
        self.changed.notify_all();
        taken
    }

    /// Asks for a read where none was asked for, and returns the locked handover.
    fn ask<T: Wait>(&self, rt: &T) -> MutexGuard<'_, Handover> {
        let mut handover = self.handover.lock(rt);
        handover.ask();
        self.changed.notify_all();
        handover
    }

    /// Ends the handover: nothing more will be taken.
    pub fn close<T: Wait>(&self, rt: &T) {
        self.handover.lock(rt).stage = Stage::Closed;
        self.changed.notify_all();
    }

    /// Waits until a read is wanted. Returns false after the end, or where nothing more will be
    /// taken.
    pub fn is_wanted<T: Wait>(&self, rt: &T) -> bool {
        let handover = self.handover.lock(rt);
        let handover = self
            .changed
            .wait_while(rt, handover, |handover| handover.is_at_rest());
        matches!(&handover.stage, Stage::Wanted)
    }

    /// Hands over what a read into `bytes` gave, and takes the other buffer back.
    pub fn give<T: Wait>(&self, rt: &T, bytes: &mut Vec<u8>, outcome: io::Result<usize>)
        requires sized { vec_len bytes.old ≡ CHUNK_LEN }
        requires bound { IfOk outcome (λ count. count ≤ CHUNK_LEN) }
        ensures { vec_len bytes.new ≡ CHUNK_LEN }
    {
        self.handover.lock(rt).give(bytes, outcome);
        self.changed.notify_all();
    }
}
