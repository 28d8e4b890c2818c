//! Tests of what neither the contracts nor the stored pictures cover: calls succeed with ample
//! memory and give results worked out by hand; the texts of faults; a reader that fails.
//! `examples/views` covers the time lines, figures, rows and bars of whole streams, with the built
//! program.

use std::alloc::Global;
use std::io::{self, BufReader, ErrorKind, Read};
use std::process::Abort;
use stream_timeline::{
    Timeline, TimelineBuilder, TimelineFault, halves_of, levels_of, numbers_of, place_on, read,
    rows_by_length, rows_of,
};

/// A stream with a blank line and two lines that are no messages. Two creates run at once for two
/// of eight seconds, the first with a provisioner. An error, a warning, and the summaries of a plan
/// and of an apply follow. The last line has no line feed.
const STREAM: &str = r#"
{}
no message
{"@timestamp":"2024-05-01T12:00:00Z","type":"version","terraform":"1.11.4"}
{"@timestamp":"2024-05-01T12:00:00Z","type":"change_summary","changes":{"operation":"plan","add":1}}
{"@timestamp":"2024-05-01T12:00:00Z","type":"apply_start","hook":{"action":"create","resource":{"addr":"a"}}}
{"@timestamp":"2024-05-01T12:00:01Z","type":"provision_start","hook":{"provisioner":"p","resource":{"addr":"a"}}}
{"@timestamp":"2024-05-01T12:00:04Z","type":"apply_start","hook":{"action":"create","resource":{"addr":"b"}}}
{"@timestamp":"2024-05-01T12:00:06Z","type":"apply_complete","hook":{"action":"create","resource":{"addr":"a"}}}
{"@timestamp":"2024-05-01T12:00:08Z","type":"apply_errored","hook":{"action":"create","resource":{"addr":"b"}}}
{"@timestamp":"2024-05-01T12:00:08Z","type":"diagnostic","diagnostic":{"severity":"error","summary":"boom","address":"a","range":{"filename":"main.tf","start":{"line":7}},"detail":" one \n\ntwo\t\n \n"}}
{"@timestamp":"2024-05-01T12:00:08Z","type":"diagnostic","diagnostic":{"severity":"warning","summary":"slow"}}
{"@timestamp":"2024-05-01T12:00:08Z","type":"change_summary","changes":{"operation":"apply","add":1,"change":-1,"remove":2,"import":3}}
{"@timestamp":"2024-05-01T12:00:10Z","type":"outputs"}"#;

/// The time line of the stream.
fn timeline_of(rt: &impl Abort, alloc: Global) -> Timeline {
    read(alloc, false, &mut STREAM.as_bytes()).expect(rt, "a message")
}

#[test]
fn lines(rt: HostRuntime) {
    let timeline = timeline_of(&rt, rt.alloc());
    assert!(rt; timeline.lines() == 14 && timeline.passed_over() == 2);
    assert!(rt; timeline.version() == Some("1.11.4"));
    let time_range = timeline.time_range().expect(&rt, "moments");
    assert!(rt; time_range.span() == 10_000_000);
}

#[test]
fn summaries(rt: HostRuntime) {
    let timeline = timeline_of(&rt, rt.alloc());
    let totals = timeline.totals().expect(&rt, "totals");
    let planned = timeline.plan_totals().expect(&rt, "totals of the plan");
    assert!(rt; timeline.has_plan_summary());
    assert!(rt; planned.added == Some(1) && planned.removed == None);
    assert!(rt; totals.added == Some(1) && totals.changed == None);
    assert!(rt; totals.removed == Some(2) && totals.imported == Some(3));
}

#[test]
fn steps(rt: HostRuntime) {
    let timeline = timeline_of(&rt, rt.alloc());
    let first = timeline.steps().first().expect(&rt, "a step");
    assert!(rt; first.line() == 6 && first.address() == "a" && first.action() == "create");
    assert!(rt; first.end() == first.begin().checked_add(6_000_000) && !first.has_failed());
    assert!(rt; first.provisioners().len() == 1);
}

/// The lines of a detail are stored without blanks at their ends, and without empty lines at its
/// end.
#[test]
fn diagnostics(rt: HostRuntime) {
    let timeline = timeline_of(&rt, rt.alloc());
    assert!(rt; timeline.errors().count() == 1 && timeline.warnings().count() == 1);
    let error = timeline.errors().stored().first().expect(&rt, "an error");
    assert!(rt; error.summary() == b"boom".as_slice() && error.address() == Some(b"a".as_slice()));
    assert!(rt; error.file() == Some(b"main.tf".as_slice()) && error.line() == Some(7));
    assert!(rt; error.detail().len() == 3 && error.more_lines() == 0);
}

/// A builder that reads the same lines counts as many.
#[test]
fn builder(rt: HostRuntime) {
    let alloc = rt.alloc();
    let mut builder = TimelineBuilder::new(alloc);
    for line in STREAM.lines() {
        assert!(rt; !builder.is_full());
        builder.line(alloc, line.as_bytes()).expect(&rt, "a line");
    }
    let timeline = builder.end().expect(&rt, "a message");
    assert!(rt;
        timeline.lines() == 14 && timeline.passed_over() == 2 && timeline.steps().len() == 2
    );
}

#[test]
fn numbers(rt: HostRuntime) {
    let alloc = rt.alloc();
    let timeline = timeline_of(&rt, alloc);
    let time_range = timeline.time_range().expect(&rt, "moments");
    let numbers = numbers_of(alloc, time_range, timeline.steps()).expect(&rt, "memory");
    assert!(rt; numbers.busy == 8_000_000 && numbers.peak == 2);
    assert!(rt; numbers.work == 10_000_000 && numbers.created == 1);
    assert!(rt; numbers.alone.as_slice() == [4_000_000, 2_000_000].as_slice());
    let levels = levels_of(alloc, &numbers.stretches, time_range.span(), 5).expect(&rt, "memory");
    assert!(rt; levels.as_slice() == [1, 1, 2, 1, 0].as_slice());
}

/// The failed one of two steps gets the only row. The length of the other is reported.
#[test]
fn rows(rt: HostRuntime) {
    let timeline = timeline_of(&rt, rt.alloc());
    let time_range = timeline.time_range().expect(&rt, "moments");
    let rows = rows_of(rt.alloc(), time_range, timeline.steps(), Some(1)).expect(&rt, "memory");
    assert!(rt; rows.places.as_slice() == [1].as_slice() && rows.left_out == 1);
    assert!(rt; rows.longest == 6_000_000 && rows.total_length == 6_000_000);
}

/// The longer of two steps gets the only row, though the other one failed.
#[test]
fn longest_rows(rt: HostRuntime) {
    let timeline = timeline_of(&rt, rt.alloc());
    let time_range = timeline.time_range().expect(&rt, "moments");
    let steps = timeline.steps();
    let rows = rows_by_length(rt.alloc(), time_range, steps, Some(1)).expect(&rt, "memory");
    assert!(rt; rows.places.as_slice() == [0].as_slice() && rows.left_out == 1);
    assert!(rt; rows.longest == 4_000_000 && rows.total_length == 4_000_000);
}

#[test]
fn bars(rt: HostRuntime) {
    let halves = halves_of(10, 100, 0, 50);
    assert!(rt; halves.first == 0 && halves.end == 10);
    let last = halves_of(10, 100, 100, 100);
    assert!(rt; last.first == 19 && last.end == 20);
    assert!(rt; last.covers(19) && !last.covers(18));
    let short = halves_of(10, 0, 0, 0);
    assert!(rt; short.first == 0 && short.end == 1);
    assert!(rt; place_on(400, 3, 1) == 133);
}

/// A reader that gives its bytes one by one, and then fails.
#[derive(Drop)]
struct Broken<'a> {
    bytes: &'a [u8],
}

impl Read for Broken<'_> {
    fn read(&mut self, buf: &mut [u8]) -> io::Result<usize> {
        match self.bytes.split_first() {
            Some((byte, rest)) if !buf.is_empty() => {
                buf[0] = *byte;
                self.bytes = rest;
                Ok(1)
            }
            _ => Err(io::Error::from(ErrorKind::BrokenPipe)),
        }
    }
}

#[test]
fn a_read_fails(rt: HostRuntime) {
    let broken = Broken {
        bytes: STREAM.as_bytes(),
    };
    let mut reader = BufReader::new(rt.alloc(), broken).expect(&rt, "memory");
    let fault = read(rt.alloc(), false, &mut reader)
        .err()
        .expect(&rt, "a fault");
    reports(&rt, rt.alloc(), fault, "the stream could not be read");
}

/// Fails if the fault has another text.
fn reports(rt: &impl Abort, alloc: Global, fault: TimelineFault, wanted: &str) {
    let content = format!(in alloc; "{fault}").expect(rt, "memory");
    assert!(rt; content.as_str() == wanted);
}

#[test]
fn faults(rt: HostRuntime) {
    let alloc = rt.alloc();
    let none = read(alloc, false, &mut "{}\n\n \t\r\n".as_bytes()).err();
    assert!(rt; none == Some(TimelineFault::NoMessage));
    assert!(rt; read(alloc, false, &mut "".as_bytes()).err() == none);
    reports(
        &rt,
        alloc,
        TimelineFault::TooLong(7),
        "line 7 is longer than 67108864 bytes",
    );
    reports(
        &rt,
        alloc,
        TimelineFault::TooManyLines,
        "the stream has more than 4294967296 lines",
    );
    reports(
        &rt,
        alloc,
        TimelineFault::TooManySteps,
        "the stream has more than 100000 steps",
    );
    reports(
        &rt,
        alloc,
        TimelineFault::NoMessage,
        "there is no message in the stream",
    );
    reports(&rt, alloc, TimelineFault::Memory, "out of memory");
}
