//! Streams, and when their lines are written.

use super::*;

/// Plays the stream in pieces of at most `most` bytes. Fails where the bytes differ from those that
/// are wanted, the sleeps differ, or bytes are held back before a sleep or a read.
fn is_written(
    rt: &impl Abort,
    alloc: Global,
    world: &'static World,
    speed: u32,
    find: bool,
    stream: &'static str,
    wanted: &'static str,
    most: usize,
) {
    let reader = new_reader(rt, alloc, world, stream, most);
    let mut taker = Taker {
        world,
        wanted: wanted.as_bytes(),
        is_other: false,
        most,
        room: usize::MAX,
        kind: ErrorKind::StorageFull,
    };
    let answer = play(alloc, world, Speed::new(speed), find, reader, &mut taker);
    holds(rt, "played to its end", answer.is_ok());
    holds(rt, "what came out", taker.has_all());
    holds(rt, "sleeps, and bytes sent on", world.is_as_wanted());
}

/// Plays the stream unchanged, in pieces of at most `most` bytes. Fails as `is_written`.
fn is_played(
    rt: &impl Abort,
    alloc: Global,
    world: &'static World,
    speed: u32,
    stream: &'static str,
    most: usize,
) {
    is_written(rt, alloc, world, speed, false, stream, stream, most);
}

/// Plays the stream with a clock that works. Fails where the sleeps differ, in microseconds.
fn comes_after(
    rt: &impl Abort,
    alloc: Global,
    speed: u32,
    stream: &'static str,
    most: usize,
    sleeps: &'static str,
) {
    let world = new_world(rt, alloc, sleeps);
    is_played(rt, alloc, world, speed, stream, most);
}

/// The sleeps do not depend on the pieces.
#[test]
fn update_of_25_seconds(rt: HostRuntime) {
    let alloc = rt.alloc();
    for most in [1usize, 7, 65_536] {
        comes_after(&rt, alloc, 1, UPDATE, most, "10000000 10000000 5000000 ");
        comes_after(&rt, alloc, 60, UPDATE, most, "166666 166667 83333 ");
    }
}

/// Timestamps of 0, 5, 3, 5 and 9 seconds.
const BACK: &str = r#"{"@timestamp":"2024-05-01T12:00:00Z","type":"a"}
{"@timestamp":"2024-05-01T12:00:05Z","type":"a"}
{"@timestamp":"2024-05-01T12:00:03Z","type":"a"}
{"@timestamp":"2024-05-01T12:00:05Z","type":"a"}
{"@timestamp":"2024-05-01T12:00:09Z","type":"a"}
"#;

/// A timestamp that goes back causes no sleep.
#[test]
fn moments_that_go_back(rt: HostRuntime) {
    comes_after(&rt, rt.alloc(), 1, BACK, 65_536, "5000000 4000000 ");
}

/// Lines that are no messages or state no timestamp: of another program, empty, without a type, or
/// with a wrong timestamp. Some have a carriage return, and the last line has no line feed.
const NO_MESSAGES: &str =
    "module.a: Creating...\r\n{\"@timestamp\":\"2024-05-01T12:00:00Z\",\"type\":\"a\"}\r\n\n{\"@timestamp\":\"2030-05-01T12:00:00Z\"}\n{\"@timestamp\":\"soon\",\"type\":\"a\"}\n{\"@timestamp\":7,\"type\":\"a\"}\n{\"@timestamp\":\"2024-05-01T12:00:01Z\",\"type\":\"a\"}\r\nlast";

/// Such lines cause no sleep.
#[test]
fn lines_that_are_no_messages(rt: HostRuntime) {
    let alloc = rt.alloc();
    comes_after(&rt, alloc, 1, NO_MESSAGES, 65_536, "1000000 ");
    comes_after(&rt, alloc, 1, "", 65_536, "");
    comes_after(&rt, alloc, 1, "a", 65_536, "");
}

/// Eleven sleeps for the first wait, of which ten return at once, and one for each later wait.
const BEGUN_AGAIN: &str =
    "10000000 10000000 10000000 10000000 10000000 10000000 10000000 10000000 10000000 10000000 10000000 10000000 5000000 ";

/// A sleep that returns at once is repeated.
#[test]
fn sleeps_that_end_early(rt: HostRuntime) {
    let alloc = rt.alloc();
    let world = new_world(&rt, alloc, BEGUN_AGAIN);
    world.lazy.set(10);
    is_played(&rt, alloc, world, 1, UPDATE, 65_536);
    holds(&rt, "the time", world.now.get() == 25_000_000);
}

/// Waits do not add up: each read takes a second, and the next sleep is shorter by that time.
#[test]
fn reader_that_takes_its_time(rt: HostRuntime) {
    let alloc = rt.alloc();
    let world = new_world(&rt, alloc, "8000000 9000000 4000000 ");
    world.read_time.set(1_000_000);
    is_played(&rt, alloc, world, 1, UPDATE, 65_536);
}

/// Where the clock can't be read, at the start or later, no line waits.
#[test]
fn clock_that_cannot_be_read(rt: HostRuntime) {
    let alloc = rt.alloc();
    for readings in [0u64, 1] {
        let world = new_world(&rt, alloc, "");
        world.readings.set(readings);
        is_played(&rt, alloc, world, 1, UPDATE, 65_536);
    }
}

/// A log: a message behind a time, a line without one, an object of another program, a message that
/// was cut off before its first brace, one behind it, and a last line without a line feed.
const LOG: &str = r#"12:00:00 {"@level":"info","@timestamp":"2024-05-01T12:00:00Z","type":"a"} end
plain text
{"@level":"debug","@timestamp":"2030-05-01T12:00:00Z"}
{"@level":"info","type":"apply_st
{"@level":"info","hook":{"action":"create"},"type":"apply_st
{"type":"b","@timestamp":"2031-05-01T12:00:00Z"}
12:00:05 {"@level":"info","@timestamp":"2024-05-01T12:00:05Z","type":"a"}"#;

/// The messages of the log, each with a line feed.
const FOUND: &str = r#"{"@level":"info","@timestamp":"2024-05-01T12:00:00Z","type":"a"}
{"@level":"info","hook":{"action":"create"}
{"@level":"info","@timestamp":"2024-05-01T12:00:05Z","type":"a"}
"#;

/// Of a log, the messages are played, and nothing else.
#[test]
fn messages_in_a_log(rt: HostRuntime) {
    let alloc = rt.alloc();
    for most in [1usize, 65_536] {
        let world = new_world(&rt, alloc, "5000000 ");
        is_written(&rt, alloc, world, 1, true, LOG, FOUND, most);
    }
}
