//! Tests of what no clause states, since the bytes come from another thread:
//!
//! - the reader gives what the reads of the input gave, in their order;
//! - a wait ends with the input or with its time;
//! - how far the thread reads ahead, and when it ends.

mod inputs;
mod reads;
mod waits;

use inputs::{Gate, Pieces, Script, Step};
use std::alloc::Global;
use std::io;
use std::io::{ErrorKind, Read};
use std::process::Abort;
use std::sync::Wait;
use std::sync::atomic::{AtomicU64, Ordering};
use std::thread::Threads;
use std::time::{Clock, Duration, Instant};
use stream_ahead::{AheadPace, AheadReader, Pace, read_ahead};

/// Fails where the condition is false. A call adds less to a proof than an assertion.
fn holds(rt: &impl Abort, case: &str, is_so: bool) {
    assert!(rt; is_so, "{case}");
}

/// Fails unless the read gives these bytes.
fn gives(rt: &impl Abort, case: &str, reader: &mut impl Read, wanted: &[u8]) {
    let mut buf = [0; 16];
    match reader.read(&mut buf) {
        Ok(count) => holds(rt, case, &buf[..count] == wanted),
        Err(_) => holds(rt, case, false),
    }
}

/// Fails unless the read fails with this kind of error.
fn fails(rt: &impl Abort, case: &str, reader: &mut impl Read, kind: ErrorKind) {
    let mut buf = [0; 16];
    match reader.read(&mut buf) {
        Ok(_) => holds(rt, case, false),
        Err(error) => holds(rt, case, error.kind() == kind),
    }
}
