//! Buses by hand, and with a thread for each sender.

ghost use Rattle.std.specs.Prelude.{◌≡◌, ◌+◌};
ghost use Rattle.apply_bus.specs.Items.{closes};

use super::*;

/// A bus with one worker.
fn bus_of_one(rt: &impl Abort, alloc: Global, capacity: u16) -> (Tx, Rx)
    ensures { (result.0.bus ≡ result.1.bus) × (result.0.worker ≡ 0) }
{
    let (mut senders, rx) = open(alloc, 1, capacity).ok().expect(rt, "a bus");
    let tx = senders.pop().expect(rt, "a sender");
    (tx, rx)
}

/// A bus with two workers.
fn bus_of_two(rt: &impl Abort, alloc: Global, capacity: u16) -> (Tx, Tx, Rx)
    ensures first { (result.0.bus ≡ result.2.bus) × (result.0.worker ≡ 0) }
    ensures second { (result.1.bus ≡ result.2.bus) × (result.1.worker ≡ 1) }
{
    let (mut senders, rx) = open(alloc, 2, capacity).ok().expect(rt, "a bus");
    let second = senders.pop().expect(rt, "a sender");
    let first = senders.pop().expect(rt, "a sender");
    (first, second, rx)
}

/// Takes an item, which must be that one.
fn expect_item<R: Wait + Abort>(rt: &R, rx: &mut Rx, wanted: Item)
    ensures { rx.new.bus ≡ rx.old.bus }
{
    assert!(rt; rx.open_left() > 0);
    assert!(rt; rx.take(rt) == Ok(wanted));
}

/// Fails if the event was not delivered.
fn is_sent(rt: &impl Abort, sent: Result<(), Undelivered>) {
    holds(rt, "an event that was delivered", sent.is_ok());
}

/// Settles a bus with one worker.
fn settle_one(rt: &impl Abort, alloc: Global, rx: Rx, closed: Closed)
    requires left { closes rx.taken ≡ rx.workers }
    requires bus { closed.bus ≡ rx.bus }
{
    let closed = vec![in alloc; closed].ok().expect(rt, "memory");
    let _settled = settle(rx, closed);
}

/// Salvages a bus with two workers, neither closed.
fn salvage_two(rt: &impl Abort, alloc: Global, taken: Taken, first: Tx, second: Tx)
    requires first { first.bus ≡ taken.bus }
    requires second { second.bus ≡ taken.bus }
{
    let open = vec![in alloc; first, second].ok().expect(rt, "memory");
    let _salvaged = salvage(taken, Vec::new(alloc), open);
}

/// Fails if the closes of another number of workers are still to come.
fn left_is(rt: &impl Abort, after: &str, rx: &Rx, wanted: u8)
    ensures { wanted + closes rx.now.taken ≡ rx.now.workers }
{
    assert!(rt; rx.open_left() == wanted, "after {after}");
}

#[test]
fn bus_by_hand(rt: HostRuntime) {
    let alloc = rt.alloc();
    let (mut tx, mut rx) = bus_of_one(&rt, alloc, 8);
    number_is(&rt, "the worker", u32::from(tx.worker()), 0);
    is_sent(&rt, tx.send(&rt, event(0, 0)));
    is_sent(&rt, tx.send(&rt, event(0, 1)));
    let closed = tx.close(&rt).ok().expect(&rt, "a closed sender");
    left_is(&rt, "nothing", &rx, 1);
    expect_item(&rt, &mut rx, Item::Event(event(0, 0)));
    left_is(&rt, "the first event", &rx, 1);
    expect_item(&rt, &mut rx, Item::Event(event(0, 1)));
    left_is(&rt, "the second event", &rx, 1);
    expect_item(&rt, &mut rx, Item::Close(0));
    left_is(&rt, "the close", &rx, 0);
    settle_one(&rt, alloc, rx, closed);
}

/// Fails if the event was delivered, or another one came back.
fn is_refused(rt: &impl Abort, sent: Result<(), Undelivered>, event: Event) {
    holds(
        rt,
        "an event that came back",
        sent == Err(Undelivered(event)),
    );
}

#[test]
fn receiving_ends_early(rt: HostRuntime) {
    let alloc = rt.alloc();
    let (mut first, second, mut rx) = bus_of_two(&rt, alloc, 4);
    is_sent(&rt, first.send(&rt, event(0, 0)));
    is_sent(&rt, first.send(&rt, event(0, 1)));
    expect_item(&rt, &mut rx, Item::Event(event(0, 0)));
    let taken = rx.give_up();
    number_is(&rt, "left", u32::from(taken.open_left()), 2);
    is_refused(&rt, first.send(&rt, event(0, 2)), event(0, 2));
    let second = second.close(&rt).err().expect(&rt, "the sender");
    number_is(&rt, "the second worker", u32::from(second.worker()), 1);
    salvage_two(&rt, alloc, taken, first, second);
}

/// Fails if something could be taken.
fn nothing_is_taken<R: Wait + Abort>(rt: &R, rx: &mut Rx) {
    assert!(rt; rx.open_left() == 1);
    holds(rt, "nothing to take", rx.take(rt) == Err(Lost));
}

#[test]
fn nothing_comes_from_senders_that_are_gone(rt: HostRuntime) {
    let (mut tx, mut rx) = bus_of_one(&rt, rt.alloc(), 1);
    is_sent(&rt, tx.send(&rt, event(0, 0)));
    drop(tx);
    expect_item(&rt, &mut rx, Item::Event(event(0, 0)));
    nothing_is_taken(&rt, &mut rx);
}

/// Sends that many events and closes. Whether all of it was delivered.
fn send_all<R: Wait>(rt: &R, mut tx: Tx, events: u32) -> bool {
    for change in 0..events {
        let worker = tx.worker();
        if tx.send(rt, event(worker, change)).is_err() {
            return false;
        }
    }
    tx.close(rt).is_ok()
}

/// What stands at the place of the worker.
fn place_of<'a>(rt: &impl Abort, places: &'a mut [u32], worker: u8) -> &'a mut u32 {
    places.get_mut(usize::from(worker)).expect(rt, "a worker")
}

/// Fails if the event is not the next of its worker, or the close comes before or after that many
/// of them.
fn note_item(rt: &impl Abort, next: &mut [u32], item: Item, events: u32) {
    match item {
        Item::Event(event) => {
            let next = place_of(rt, next, event.worker);
            number_is(rt, "an event", event.change, *next);
            *next = event.change.wrapping_add(1);
        }
        Item::Close(worker) => {
            number_is(rt, "a close", *place_of(rt, next, worker), events);
        }
    }
}

/// Takes all items, and sees that each worker's events come in order, that many, and then its
/// close. The number of takes.
fn take_all<R: Wait + Abort>(rt: &R, rx: &mut Rx, events: u32) -> u32 {
    let mut next = [0u32; 8];
    let mut takes = 0u32;
    for _ in rt.forever() {
        if rx.open_left() == 0 {
            break;
        }
        let item = rx.take(rt).ok().expect(rt, "an item");
        note_item(rt, &mut next, item, events);
        takes = takes.wrapping_add(1);
    }
    takes
}

/// The number of takes of a bus with a thread for each of its workers, which sends that many
/// events.
fn takes_from_threads<R: Threads + Wait + Abort + Sync>(
    rt: &R,
    alloc: Global,
    workers: u8,
    capacity: u16,
    events: u32,
) -> u32 {
    let (senders, mut rx) = open(alloc, workers, capacity).ok().expect(rt, "a bus");
    thread::scope(thread::scope_env(), rt, |scope| {
        for tx in senders {
            let started = scope.spawn(move || send_all(rt, tx, events)).is_ok();
            holds(rt, "a thread", started);
        }
        take_all(rt, &mut rx, events)
    })
}

#[test]
fn senders_in_threads(rt: HostRuntime) {
    let takes = takes_from_threads(&rt, rt.alloc(), 2, 2, 3);
    number_is(&rt, "from 2 workers", takes, 8);
    let takes = takes_from_threads(&rt, rt.alloc(), 8, 1, 10);
    number_is(&rt, "from 8 workers", takes, 88);
}
