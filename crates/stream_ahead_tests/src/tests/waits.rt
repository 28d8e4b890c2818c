//! When a wait ends, how far the thread reads ahead, and when it ends.

use super::*;

/// An input of two lines.
const LINES: &[Step] = &[Step::Bytes(b"one\n"), Step::Bytes(b"two\n")];

/// Waits longer than any test takes.
fn waits_long(pace: &impl Pace) -> bool {
    pace.wait(Duration::from_secs(60))
}

/// Waits no time.
fn waits_not(pace: &impl Pace) -> bool {
    pace.wait(Duration::ZERO)
}

/// Runs the work with an input of these steps, which wait at the gate.
fn run<
    T: Threads + Wait + Clock + Sync + Abort,
    W: FnOnce(&mut AheadReader<'_, T>, &AheadPace<'_, T>) -> () + Drop,
>(rt: &T, alloc: Global, gate: &Gate, steps: &[Step], work: W)
    requires { W.IsAlwaysCallable work }
{
    let input = Script { rt, gate, steps };
    let outcome = read_ahead(rt, alloc, input, work);
    holds(rt, "a thread", outcome.is_ok());
}

/// Fails unless bytes, an error and the end each end a wait, and each later wait until they are
/// read.
fn input_ends_waits(rt: &impl Abort, reader: &mut impl Read, pace: &impl Pace) {
    holds(rt, "bytes", waits_long(pace) && waits_not(pace));
    let mut byte = [0];
    holds(rt, "one byte", reader.read(&mut byte).ok() == Some(1));
    holds(rt, "the other bytes", waits_not(pace));
    gives(rt, "the other bytes", reader, b"ne\n");
    holds(rt, "an error", waits_long(pace) && waits_not(pace));
    fails(rt, "an error", reader, ErrorKind::Interrupted);
    holds(rt, "the end", waits_long(pace) && waits_not(pace));
    gives(rt, "the end", reader, b"");
    holds(rt, "still the end", waits_not(pace));
}

/// Bytes, an error, and the end.
const FAILING: &[Step] = &[Step::Bytes(b"one\n"), Step::Fails(ErrorKind::Interrupted)];

fn all_ends_waits<T: Threads + Wait + Clock + Sync + Abort>(rt: &T, alloc: Global) {
    let gate = Gate::new();
    run(rt, alloc, &gate, FAILING, |reader, pace| {
        input_ends_waits(rt, reader, pace)
    });
    holds(rt, "three reads", gate.reads() == 3);
}

#[test]
fn bytes_an_error_and_the_end_end_a_wait(rt: HostRuntime) {
    all_ends_waits(&rt, rt.alloc());
}

/// Fails unless a wait for an input that is silent until the gate opens ends with its time.
fn times_out(rt: &(impl Abort + Clock), reader: &mut impl Read, pace: &impl Pace, gate: &Gate) {
    let short = Duration::from_millis(30);
    let begin = Instant::now(rt).expect(rt, "a clock");
    holds(rt, "a silent input", !pace.wait(short));
    let gone = begin.elapsed(rt).expect(rt, "a clock");
    holds(rt, "its time", gone >= short);
    holds(rt, "still silent", !waits_not(pace));
    gate.open();
    holds(rt, "no longer silent", waits_long(pace));
    gives(rt, "what came", reader, b"one\n");
}

fn silence_ends_waits<T: Threads + Wait + Clock + Sync + Abort>(rt: &T, alloc: Global) {
    let gate = Gate::closed();
    let input = Script {
        rt,
        gate: &gate,
        steps: LINES,
    };
    let outcome = read_ahead(
        rt,
        alloc,
        input,
        |reader, pace| times_out(rt, reader, pace, &gate),
    );
    holds(rt, "a thread", outcome.is_ok());
}

#[test]
fn a_silent_input_does_not_end_a_wait(rt: HostRuntime) {
    silence_ends_waits(&rt, rt.alloc());
}

/// Fails unless the input is read as often as it has to be: never without a read, and one chunk
/// ahead of the bytes that are taken.
fn reads_one_chunk_ahead<T: Threads + Wait + Clock + Sync + Abort>(rt: &T, alloc: Global) {
    let gate = Gate::new();
    run(rt, alloc, &gate, LINES, |_reader, _pace| {});
    run(rt, alloc, &gate, LINES, |reader, _pace| {
        holds(rt, "no room", reader.read(&mut []).ok() == Some(0))
    });
    holds(rt, "no read", gate.reads() == 0);
    run(rt, alloc, &gate, LINES, |reader, _pace| {
        holds(rt, "one byte", reader.read(&mut [0]).ok() == Some(1))
    });
    holds(
        rt,
        "one read for a part of the first line",
        gate.reads() == 1,
    );
    run(rt, alloc, &gate, LINES, |reader, pace| {
        gives(rt, "the first line", reader, b"one\n");
        holds(rt, "the second line", waits_long(pace))
    });
    holds(rt, "two reads more for the first line", gate.reads() == 3);
}

#[test]
fn the_thread_reads_one_chunk_ahead_and_ends_with_the_work(rt: HostRuntime) {
    reads_one_chunk_ahead(&rt, rt.alloc());
}
