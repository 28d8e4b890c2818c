//! Tests what no clause states: calls succeed while there is memory, and items and numbers arrive
//! in any schedule.

ghost use Rattle.std.specs.Prelude.{◌≡◌};

mod bus;
mod drawing;
mod drawing_in_threads;

use apply_bus::{
    BusError, Claims, Closed, Drawer, Item, Lost, MAX_TAKEN, Rx, Taken, Tx, Undelivered, finish,
    open, salvage, settle,
};
use apply_events::{Event, What};
use std::alloc::Global;
use std::fmt::Display;
use std::process::Abort;
use std::sync::Wait;
use std::sync::atomic::{AtomicU64, Ordering};
use std::thread;
use std::thread::{Threads, yield_now};

/// An event that shows its worker and its number.
fn event(worker: u8, change: u32) -> Event
    ensures { result.worker ≡ worker }
{
    Event {
        worker,
        change,
        step: 0,
        what: What::Start,
        at: 0,
    }
}

/// Fails unless the fact holds. A call makes proofs grow less than an assertion.
fn holds(rt: &impl Abort, case: &str, is_so: bool) {
    assert!(rt; is_so, "{case}");
}

/// Fails if a number differs.
fn number_is(rt: &impl Abort, case: &str, actual: u32, wanted: u32) {
    holds(rt, case, actual == wanted);
}

/// Fails unless a bus of these sizes opens with that many closes to come, or is refused if there
/// are none.
fn opens(rt: &impl Abort, alloc: Global, workers: u8, capacity: u16, wanted: u32) {
    match open(alloc, workers, capacity) {
        Ok((_senders, rx)) => number_is(rt, "a bus", u32::from(rx.open_left()), wanted),
        Err(error) => holds(rt, "no bus", error == BusError::BadSize && wanted == 0),
    }
}

/// Fails unless claims of these sizes open with that many drawers, or are refused if there are
/// none.
fn claims_open(rt: &impl Abort, alloc: Global, workers: u8, n: u32, wanted: usize) {
    match Claims::open(alloc, workers, n) {
        Ok((_claims, drawers)) => holds(rt, "claims", drawers.len() == wanted),
        Err(error) => holds(rt, "no claims", error == BusError::BadSize && wanted == 0),
    }
}

#[test]
fn sizes_and_limits(rt: HostRuntime) {
    let alloc = rt.alloc();
    opens(&rt, alloc, 0, 1, 0);
    opens(&rt, alloc, 9, 1, 0);
    opens(&rt, alloc, 1, 0, 0);
    opens(&rt, alloc, 1, 1025, 0);
    opens(&rt, alloc, 1, 1, 1);
    opens(&rt, alloc, 8, 1024, 8);
    claims_open(&rt, alloc, 0, 3, 0);
    claims_open(&rt, alloc, 9, 3, 0);
    claims_open(&rt, alloc, 1, 0, 1);
    claims_open(&rt, alloc, 8, u32::MAX, 8);
    holds(&rt, "the most that is taken", MAX_TAKEN == 1 << 29);
}

/// Fails if the error has another text.
fn displays(rt: &impl Abort, alloc: Global, error: &impl Display, wanted: &str) {
    let text = error.to_string(alloc).expect(rt, "memory");
    holds(rt, wanted, text.as_str() == wanted);
}

#[test]
fn errors_have_their_texts(rt: HostRuntime) {
    let alloc = rt.alloc();
    displays(&rt, alloc, &BusError::BadSize, "a size is out of range");
    displays(&rt, alloc, &BusError::Memory, "out of memory");
    let undelivered = Undelivered(event(0, 0));
    displays(&rt, alloc, &undelivered, "the receiving has ended");
    displays(&rt, alloc, &Lost, "nothing more can be taken");
}
