//! Workers in threads: they run at once, lines are written meanwhile, a free worker takes the next
//! change, and steps pass the gate in their order.

use super::watching::{EACH, FOUR_CREATES, NO_STEP, Watch, passes_of, watched, word_is};
use super::*;

/// A plan with a replacement that destroys first.
const REPLACEMENT: &str =
    r#"{"format_version":"1.2","terraform_version":"1.9.0","resource_changes":[{"address":"null_resource.a","mode":"managed","type":"null_resource","name":"a","change":{"actions":["delete","create"]}}]}"#;

/// Fails if two workers, of which the one that applies that change is held until all changes have
/// come, apply others than so many, or the gate is passed otherwise.
fn come_together<R: Threads + Wait + Sync + Abort>(
    rt: &R,
    alloc: Global,
    plan: &str,
    change: u32,
    wanted: u64,
    added: u64,
) {
    let passed = AtomicU64::new(0);
    let gate = Watch::new(&passed, &passed, wanted, change, 0);
    let (options, sink) = (options(2, 64), memory(alloc));
    let (_sink, counted) = apply_plan(rt, alloc, plan, NO_SCRIPT, options, sink, &gate);
    word_is(rt, "missed", &gate.missed, 0);
    word_is(rt, "passed", &passed, wanted);
    counts_are(rt, counted, added, 0);
}

/// Each of two changes is held until the other has come.
#[test]
fn two_workers_at_once(rt: HostRuntime) {
    let (plan, _, _) = parts_of(&rt, FIRST_FAILS);
    come_together(&rt, rt.alloc(), plan, EACH, 0x0101, 2);
}

/// No change is assigned to a worker beforehand: while one worker is held, the other applies the
/// rest.
#[test]
fn fixed_assignment(rt: HostRuntime) {
    for change in 0..2 {
        come_together(&rt, rt.alloc(), FOUR_CREATES, change, 0x0101_0101, 4);
    }
}

/// Both steps of the first change, and then the only one of the second.
#[test]
fn a_gate_is_passed_before_each_step(rt: HostRuntime) {
    let passes = passes_of(&rt, rt.alloc(), no_hooks(&rt, rt.alloc()));
    number_is(&rt, "passes", passes, 0x123);
}

/// The second step is held until the completion of the first is written.
#[test]
fn lines_while_workers_run(rt: HostRuntime) {
    let (completed, passed, alloc) = (AtomicU64::new(0), AtomicU64::new(0), rt.alloc());
    let gate = Watch::new(&passed, &completed, 1, EACH, 1);
    let line = r#","type":"apply_complete"}"#;
    let sink = watched(alloc, line, &completed, true, &completed, 0);
    let (plan, options) = (REPLACEMENT, options(2, 1));
    let (_sink, counted) = apply_plan(&rt, alloc, plan, NO_SCRIPT, options, sink, &gate);
    word_is(&rt, "missed", &gate.missed, 0);
    word_is(&rt, "passed", &passed, 0x11);
    counts_are(&rt, counted, 1, 1);
}

/// Fails if of four changes, which one worker applies over a bus with that room, others are begun
/// while the first start is held.
fn so_many_begin<R: Threads + Wait + Sync + Abort>(
    rt: &R,
    alloc: Global,
    capacity: u16,
    wanted: u64,
) {
    let (begun, started) = (AtomicU64::new(0), AtomicU64::new(0));
    let gate = Watch::new(&begun, &begun, 0, EACH, NO_STEP);
    let line = r#","type":"apply_start"}"#;
    let sink = watched(alloc, line, &started, false, &begun, wanted);
    let options = options(1, capacity);
    let (sink, counted) = apply_plan(rt, alloc, FOUR_CREATES, NO_SCRIPT, options, sink, &gate);
    holds(rt, "held", sink.held);
    number_is(rt, "begun meanwhile", sink.begun_meanwhile, wanted);
    word_is(rt, "begun", &begun, 0x0101_0101);
    counts_are(rt, counted, 4, 0);
}

/// A worker waits while the bus has no room for its event. With room for one, the completion of the
/// first change waits there, and the start of the second finds no room.
#[test]
fn lines_while_workers_run_into_a_slow_sink(rt: HostRuntime) {
    so_many_begin(&rt, rt.alloc(), 1, 0x0101);
}

/// A worker goes on while there is room. With room for three, the events of the second change wait
/// there too, and the start of the third finds no room.
#[test]
fn as_much_waits_as_there_is_room(rt: HostRuntime) {
    so_many_begin(&rt, rt.alloc(), 2, 0x0101);
    so_many_begin(&rt, rt.alloc(), 3, 0x01_0101);
}
