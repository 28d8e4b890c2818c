//! Short waits in which a thread does not sleep.

use std::{hint, thread};

/// The last pause, counted from 0, in which a thread spins.
const SPINS: u32 = 6;

/// Waits a little: spins, longer each time, and later lets other threads run.
pub(crate) fn pause_awake(pauses: u32) {
    if pauses <= SPINS {
        for _ in 0..1u32 << pauses.min(SPINS) {
            hint::spin_loop();
        }
    } else {
        thread::yield_now();
    }
}
