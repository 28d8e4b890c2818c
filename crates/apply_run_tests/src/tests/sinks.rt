//! Sinks whose writes are short, accept nothing or fail, and what they answer.

ghost use Rattle.std.specs.Prelude.{◌≡◌};

use super::*;
use std::io;
use std::io::{ErrorKind, Write};

/// Accepts at most `per_write` bytes a call, or fails; its flush may fail too.
#[derive(Drop)]
pub(super) struct TestWriter {
    taken: Vec<u8>,
    per_write: usize,
    fails: bool,
}

impl Write for TestWriter {
    fn write(&mut self, bytes: &[u8]) -> io::Result<usize> {
        if self.fails {
            return Err(io::Error::from(ErrorKind::BrokenPipe));
        }
        let count = bytes.len().min(self.per_write);
        self.taken.extend_from_slice(&bytes[..count])?;
        Ok(count)
    }

    fn flush(&mut self) -> io::Result<()> {
        if self.fails {
            return Err(io::Error::from(ErrorKind::BrokenPipe));
        }
        Ok(())
    }
}

/// A sink over such a writer.
pub(super) fn writing(alloc: Global, per_write: usize, fails: bool) -> StdSink<TestWriter>
    ensures { result.failures ≡ 0 }
{
    StdSink::new(TestWriter {
        taken: Vec::new(alloc),
        per_write,
        fails,
    })
}

/// The text of a line, in which a dash stands for none.
fn text_in(text: &str) -> &str {
    if text == "-" { "" } else { text }
}

/// Fails unless the step wrote the bytes of its third word, where `no` is a failed write, and the
/// number of failed writes since the sink began is its fourth word.
fn answers_so(rt: &impl Abort, step: &str, taken: Option<usize>, failures: u64) {
    let (bytes, failed) = (cell(step, 2), cell(step, 3));
    holds(rt, step, taken == bytes.parse::<usize>().ok());
    holds(rt, step, Some(failures) == failed.parse::<u64>().ok());
}

/// Fails if the sink answers otherwise to the text of the step, in one write or in `all`.
fn takes_so<S: Sink, R: Abort>(rt: &R, sink: &mut S, step: &str) {
    assert!(rt; sink.failures() < u64::MAX);
    let text = text_in(cell(step, 1)).as_bytes();
    let taken = if cell(step, 0) == "all" {
        Some(write_all(sink, text))
    } else {
        sink.write(text).ok()
    };
    answers_so(rt, step, taken, sink.failures());
}

/// Fails if the sink flushes otherwise than the step states.
fn flushes_so(rt: &impl Abort, sink: &mut StdSink<TestWriter>, step: &str) {
    assert!(rt; sink.failures() < u64::MAX);
    let flushed = if sink.flush().is_ok() { Some(0) } else { None };
    answers_so(rt, step, flushed, sink.failures());
}

/// Fails if the bytes differ.
fn bytes_are(rt: &impl Abort, actual: &[u8], wanted: &[u8]) {
    holds(rt, "bytes", actual == wanted);
}

/// Sinks in memory, of three lines each: the bytes it accepts with a write and in all; the steps;
/// and the bytes that it has then.
const IN_MEMORY: &str = "7 any
one abcdefghij 7 0; one - 0 0; one hi 2 0; all jklmnopqrstuvwxyz 17 0
abcdefghijklmnopqrstuvwxyz

7 9
all abcdefghij 9 1; one j no 2; one - 0 2
abcdefghi

1 0
one a no 1
-";

/// Fails if a sink in memory has other bytes than the lines state.
fn memory_takes_so(rt: &impl Abort, alloc: Global, lines: &str) {
    let (limits, steps, bytes) = parts_of(rt, lines);
    let per_write = cell(limits, 0).parse::<usize>().ok().expect(rt, limits);
    let room = cell(limits, 1).parse::<usize>().ok();
    let mut sink = limited(rt, alloc, per_write, room);
    for step in steps.split("; ") {
        takes_so(rt, &mut sink, step);
    }
    bytes_are(rt, sink.bytes(), text_in(bytes).as_bytes());
}

#[test]
fn memory_takes_as_much_as_it_may(rt: HostRuntime) {
    for lines in IN_MEMORY.split("\n\n") {
        memory_takes_so(&rt, rt.alloc(), lines);
    }
}

/// Sinks over a writer: the bytes it accepts with a write, and whether it fails; the steps; and the
/// bytes that it has then.
const OVER_WRITERS: &str = "3 does
one abcdefgh 3 0; all defgh 5 0; flush - 0 0
abcdefgh

0 does
one - 0 0; one a no 1; all ab 0 2
-

3 fails
one a no 1; flush - no 2; one - 0 2
-";

/// Fails if a sink over a writer has other bytes than the lines state.
fn writer_takes_so(rt: &impl Abort, alloc: Global, lines: &str) {
    let (limits, steps, bytes) = parts_of(rt, lines);
    let per_write = cell(limits, 0).parse::<usize>().ok().expect(rt, limits);
    let mut sink = writing(alloc, per_write, cell(limits, 1) == "fails");
    for step in steps.split("; ") {
        if cell(step, 0) == "flush" {
            flushes_so(rt, &mut sink, step);
        } else {
            takes_so(rt, &mut sink, step);
        }
    }
    let writer = leaked(rt, alloc, sink.into_inner());
    bytes_are(rt, writer.taken.as_slice(), text_in(bytes).as_bytes());
}

#[test]
fn writers_may_take_less_or_fail(rt: HostRuntime) {
    for lines in OVER_WRITERS.split("\n\n") {
        writer_takes_so(&rt, rt.alloc(), lines);
    }
}
