//! The gate at which started workers wait until all threads were started.

use std::sync::Wait;
use std::sync::atomic::{AtomicU64, Ordering};
use std::thread::yield_now;

/// Workers wait. A new gate has this value.
const WAIT: u64 = 0;

const BEGIN: u64 = 1;

const STOP: u64 = 2;

/// A word that makes started workers wait, begin or stop. No clause says anything about it.
pub(crate) struct StartGate {
    word: AtomicU64,
}

impl Drop for StartGate {
    fn drop(self) {
        let StartGate { word: _ } = self;
    }
}

impl StartGate {
    /// Makes a gate at which workers wait.
    pub fn new() -> StartGate {
        StartGate {
            word: AtomicU64::new(WAIT),
        }
    }

    /// Lets all workers begin, or makes them stop.
    pub fn announce(&self, begin: bool) {
        let word = if begin { BEGIN } else { STOP };
        self.word.store(word, Ordering::SeqCst);
    }

    /// Waits until the gate opens, and returns whether the workers may begin.
    pub fn wait<R: Wait>(&self, rt: &R) -> bool {
        for _ in rt.forever() {
            match self.word.load(Ordering::SeqCst) {
                BEGIN => return true,
                STOP => return false,
                _ => yield_now(),
            }
        }
        unreachable!()
    }
}
