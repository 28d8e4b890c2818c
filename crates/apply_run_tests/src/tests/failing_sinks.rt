//! Streams into sinks that accept few bytes at a time, or fail.

ghost use Rattle.std.specs.Prelude.{◌<◌, ◌-◌, ◌^◌};

use super::sinks::writing;
use super::*;

/// Fails if a sink with these limits gets other bytes of the run's stream than it has room for, or
/// if the run ends otherwise.
fn takes_so_many<R: Threads + Wait + Sync + Abort>(
    rt: &R,
    alloc: Global,
    run: &str,
    workers: u8,
    per_write: usize,
    room: Option<usize>,
    counts: Counts,
    taken: u64,
) {
    let (plan, script, stream) = parts_of(rt, run);
    let (options, sink) = (options(workers, 64), limited(rt, alloc, per_write, room));
    let (sink, end) = apply_texts(rt, alloc, plan, script, options, sink, &NoGate);
    let room = room.unwrap_or(stream.len());
    has_written(
        rt,
        leaked(rt, alloc, sink),
        stream,
        room,
        end,
        counts,
        taken,
    );
}

/// The stream as a whole by 7 bytes, and its first 100 bytes.
#[test]
fn short_and_full_sinks(rt: HostRuntime) {
    let (alloc, create) = (rt.alloc(), counts(1, 0, 0, 0, 0));
    takes_so_many(&rt, alloc, ONE_CREATE, 1, 7, None, create, 2);
    takes_so_many(&rt, alloc, ONE_CREATE, 1, 1000, Some(100), create, 2);
}

/// Applies one create into the sink, and fails where it does not end so.
fn creates_into<S: Sink + Drop, R: Threads + Wait + Sync + Abort>(
    rt: &R,
    alloc: Global,
    workers: u8,
    sink: S,
    wanted: Result<Report, Refusal>,
) -> S
    requires { S.failed sink < 2 ^ 64 - 1 }
{
    let (plan, script, _) = parts_of(rt, ONE_CREATE);
    let options = options(workers, 64);
    let (sink, end) = apply_texts(rt, alloc, plan, script, options, sink, &NoGate);
    ends(rt, "one create", end, wanted);
    sink
}

/// A writer that accepts nothing.
#[test]
fn ok_of_nothing(rt: HostRuntime) {
    let alloc = rt.alloc();
    let wanted = failed(report_of(counts(1, 0, 0, 0, 0), 2, 0));
    let sink = creates_into(&rt, alloc, 1, writing(alloc, 0, false), wanted);
    number_is(&rt, "failed writes", leaked(&rt, alloc, sink).failures(), 1);
}

#[test]
fn into_a_writer(rt: HostRuntime) {
    let alloc = rt.alloc();
    let (_, _, stream) = parts_of(&rt, ONE_CREATE);
    let report = report_of(counts(1, 0, 0, 0, 0), 2, stream.len());
    let sink = StdSink::new(Vec::new(alloc));
    let mut sink = creates_into(&rt, alloc, 8, sink, Ok(report));
    number_is(&rt, "failed writes", sink.failures(), 0);
    holds(&rt, "a flush", sink.flush().is_ok());
    let bytes = leaked(&rt, alloc, sink.into_inner());
    holds(&rt, "bytes", bytes.as_slice() == stream.as_bytes());
}

/// The most bytes that a sink accepts with each write: single bytes, few, and whole lines.
const WRITES: [usize; 3] = [1, 7, 4096];

/// Whichever byte is the first that a sink refuses, the sink has all bytes before it and nothing
/// more, and all events are taken.
fn fails_with_each_write<R: Threads + Wait + Sync + Abort>(
    rt: &R,
    alloc: Global,
    run: &str,
    workers: u8,
    per_write: usize,
) {
    let (_, _, stream) = parts_of(rt, run);
    let counts = counts(1, 0, 0, 1, 0);
    for room in 0..=stream.len() {
        takes_so_many(rt, alloc, run, workers, per_write, Some(room), counts, 5);
    }
}

/// Tests each number of bytes for a write.
fn fails_at_each_byte_of<R: Threads + Wait + Sync + Abort>(
    rt: &R,
    alloc: Global,
    run: &str,
    workers: u8,
) {
    for per_write in WRITES {
        fails_with_each_write(rt, alloc, run, workers, per_write);
    }
}

#[test]
fn fails_at_each_byte_around_a_diagnostic(rt: HostRuntime) {
    fails_at_each_byte_of(&rt, rt.alloc(), FIRST_FAILS, 1);
}

/// The stream of the failed replacement is the same with every number of workers.
#[test]
fn fails_at_each_byte(rt: HostRuntime) {
    fails_at_each_byte_of(&rt, rt.alloc(), FAILED_DESTROY, 1);
}

#[test]
fn fails_at_each_byte_under_two_workers(rt: HostRuntime) {
    fails_at_each_byte_of(&rt, rt.alloc(), FAILED_DESTROY, 2);
}

/// A test of its own, since eight threads for each byte take their time.
#[test]
fn single_bytes_fail_under_eight_workers(rt: HostRuntime) {
    fails_with_each_write(&rt, rt.alloc(), FAILED_DESTROY, 8, 1);
}

#[test]
fn few_bytes_fail_under_eight_workers(rt: HostRuntime) {
    fails_with_each_write(&rt, rt.alloc(), FAILED_DESTROY, 8, 7);
}

#[test]
fn whole_lines_fail_under_eight_workers(rt: HostRuntime) {
    fails_with_each_write(&rt, rt.alloc(), FAILED_DESTROY, 8, 4096);
}
