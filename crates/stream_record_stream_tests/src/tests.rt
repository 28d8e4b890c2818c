//! Tests of what no contract states: a whole stream with values worked out by hand, the texts of
//! faults, and a reader that fails.

use apply_plan::{Plan, read_plan};
use std::alloc::Global;
use std::io;
use std::io::{BufReader, ErrorKind, Read};
use std::process::Abort;
use stream_record_stream::{ApplyStream, StreamFault, read_apply};

/// Two creates.
const PLAN: &str = r#"{"format_version":"1.2","resource_changes":[
{"address":"a.a","mode":"managed","type":"a","name":"a","change":{"actions":["create"]}},
{"address":"a.b","mode":"managed","type":"a","name":"b","change":{"actions":["create"]}}]}"#;

/// A stream that was cut off. What stands before the plan's summary is passed over.
const STREAM: &str =
    r#"{"@level":"info","type":"version","ui":"1.0","@timestamp":"1970-01-01T00:00:01Z"}
{"type":"apply_start","hook":{"resource":{"addr":"a.b"},"action":"create"}}
{"type":"diagnostic","diagnostic":{"severity":"error","summary":"before"}}
no message
{"type":"change_summary","changes":{"operation":"plan"}}
{"type":"ephemeral_op_start"}
{"type":"apply_start","@timestamp":"1970-01-01T00:00:02.5Z","hook":{"resource":{"addr":"a.a"},"action":"create"}}
{"type":"diagnostic","diagnostic":{"severity":"warning","summary":"after"}}
{"type":"apply_complete","hook":{"resource":{"addr":"a.a"},"action":"create","elapsed_seconds":0}}
{"type":"outputs","outputs":{"o":{"type":"string","value":"v"}}}
"#;

const SUMMARY: &str = r#"{"type":"change_summary","changes":{"operation":"destroy"}}"#;

const VERSION: &str = r#"{"type":"version"}
{"type":"version"}
"#;

/// Lines, and why they are refused.
const REFUSED: [(&str, &str); 4] = [
    ("{}\n", "there is no message in the stream"),
    (
        "log: {\"@level\":1}\n",
        "there is no message in the stream: --find finds them in a log",
    ),
    (VERSION, "line 9 repeats the version of line 8"),
    (
        r#"{"type":"apply_start","hook":{"resource":{"addr":"a.c"},"action":"create"}}"#,
        "no step of the stream is one of the plan",
    ),
];

/// The plan.
fn plan(rt: &impl Abort, alloc: Global) -> Plan {
    read_plan(alloc, PLAN.as_bytes()).ok().expect(rt, "a plan")
}

/// Fails unless what stands after the plan's summary is known of the stream, and only that.
fn check_lines(rt: &impl Abort, stream: &ApplyStream<'_>) {
    assert!(rt; stream.begun.begins() == [0].as_slice());
    assert!(rt; stream.begun.ends() == [0].as_slice());
    assert!(rt; stream.notes.len() == 1);
    assert!(rt; stream.outputs.as_slice().len() == 1);
    assert!(rt; stream.no_message.first == Some(14) && stream.no_message.count == 1);
    assert!(rt; stream.ephemeral == Some(16));
    assert!(rt; stream.is_default_form && stream.last_second == 3);
}

#[test]
fn a_stream_is_cut_off(rt: HostRuntime) {
    let alloc = rt.alloc();
    let plan = plan(&rt, alloc);
    let stream = read_apply(alloc, &plan, false, 10, &mut STREAM.as_bytes())
        .ok()
        .expect(&rt, "a stream");
    check_lines(&rt, &stream);
    assert!(rt; stream.cut_off_at() == Some(3));
}

#[test]
fn a_stream_is_whole(rt: HostRuntime) {
    let alloc = rt.alloc();
    let plan = plan(&rt, alloc);
    let text = format!(in alloc; "{STREAM}{SUMMARY}").expect(&rt, "memory");
    let stream = read_apply(alloc, &plan, false, 10, &mut text.as_bytes())
        .ok()
        .expect(&rt, "a stream");
    check_lines(&rt, &stream);
    assert!(rt; stream.cut_off_at().is_none());
}

/// Fails unless the fault has this text.
fn reports(rt: &impl Abort, alloc: Global, fault: StreamFault, wanted: &str) {
    let text = format!(in alloc; "{fault}").expect(rt, "memory");
    assert!(rt; text.as_str() == wanted);
}

#[test]
fn streams_are_refused(rt: HostRuntime) {
    let alloc = rt.alloc();
    let plan = plan(&rt, alloc);
    for (text, wanted) in REFUSED {
        let fault = read_apply(alloc, &plan, false, 7, &mut text.as_bytes())
            .err()
            .expect(&rt, "a fault");
        reports(&rt, alloc, fault, wanted);
    }
}

#[test]
fn faults_have_texts(rt: HostRuntime) {
    let alloc = rt.alloc();
    reports(
        &rt,
        alloc,
        StreamFault::TooLong(7),
        "line 7 is longer than 67108864 bytes",
    );
    reports(
        &rt,
        alloc,
        StreamFault::TooMany,
        "the stream has more than 4294967296 lines",
    );
    reports(&rt, alloc, StreamFault::Memory, "out of memory");
}

/// The lines before count too.
#[test]
fn lines_are_too_many(rt: HostRuntime) {
    let alloc = rt.alloc();
    let plan = plan(&rt, alloc);
    let most = 4_294_967_296;
    let fault = read_apply(alloc, &plan, false, most, &mut "{}\n".as_bytes()).err();
    assert!(rt; fault == Some(StreamFault::TooMany));
    let fault = read_apply(alloc, &plan, false, most, &mut "".as_bytes()).err();
    assert!(rt; fault == Some(StreamFault::NoMessage { is_log: false }));
    let fault = read_apply(alloc, &plan, false, u64::MAX, &mut "".as_bytes()).err();
    assert!(rt; fault == Some(StreamFault::TooMany));
}

/// A reader that gives its bytes one by one, and then fails.
#[derive(Drop)]
struct Broken<'a> {
    bytes: &'a [u8],
}

impl Read for Broken<'_> {
    fn read(&mut self, buf: &mut [u8]) -> io::Result<usize> {
        match self.bytes.split_first() {
            Some((byte, rest)) if !buf.is_empty() => {
                buf[0] = *byte;
                self.bytes = rest;
                Ok(1)
            }
            _ => Err(io::Error::from(ErrorKind::BrokenPipe)),
        }
    }
}

/// The read fails after the first lines, in a line, and while the runs are counted.
#[test]
fn a_read_fails(rt: HostRuntime) {
    let alloc = rt.alloc();
    let plan = plan(&rt, alloc);
    for text in [STREAM, "{\"type\":", VERSION] {
        let broken = Broken {
            bytes: text.as_bytes(),
        };
        let mut reader = BufReader::new(alloc, broken).expect(&rt, "memory");
        let fault = read_apply(alloc, &plan, false, 0, &mut reader)
            .err()
            .expect(&rt, "a fault");
        reports(&rt, alloc, fault, "the stream could not be read");
    }
}
