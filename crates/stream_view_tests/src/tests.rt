//! Tests of what the contracts don't cover: whole pictures, readers and writers that fail, and
//! hostile texts. The pictures that `checks/views` compares cover words, widths and layouts.

mod files;
mod markdown;
mod objects;
mod runs;
mod streams;

use files::Disk;
use std::alloc::Global;
use std::io::{ErrorKind, Read, Write};
use std::process::Abort;
use std::rt::Files;
use std::{array, io};
use stream_timeline::TimelineFault;
use stream_tool::{Outcome, run_input, run_tool};
use stream_view::{Colour, DrawFault, Drawn, Form, PictureFault, RowChoice, Settings, Sort, View};
use streams::{Given, WrittenOutput};

/// The tool for an output that shows no colours.
const PLAIN: View = View {
    is_colour_wanted: false,
};

/// A text of 120 columns, without colours.
const TEXT: Form = Form::Text {
    width: 120,
    colour: Colour::Never,
};

/// The stream of one create, shortened.
const ONE_CREATE: &str =
    r#"{"@timestamp":"1970-01-01T00:00:00Z","terraform":"1.9.0","type":"version"}
{"@timestamp":"1970-01-01T00:00:00Z","hook":{"action":"create","resource":{"addr":"random_pet.animal"}},"type":"apply_start"}
{"@timestamp":"1970-01-01T00:00:00Z","hook":{"action":"create","resource":{"addr":"random_pet.animal"}},"type":"apply_complete"}
{"@timestamp":"1970-01-01T00:00:00Z","changes":{"add":1,"change":0,"operation":"apply","remove":0},"type":"change_summary"}
"#;

/// The picture of that stream.
const ONE_CREATE_TEXT: &str = "Terraform 1.9.0: 1 step in 0s: 1 added, 0 changed, 0 destroyed

                                   0s
create random_pet.animal        0s ▖
";

/// A step without an end, whose address and action are markup and would steer a terminal.
const HOSTILE: &str =
    r#"{"@timestamp":"1970-01-01T00:00:00Z","hook":{"action":"<b>","resource":{"addr":"a[\"\u001b[31m</text>&\"]"}},"type":"apply_start"}
{"@timestamp":"1970-01-01T00:00:10Z","type":"outputs"}
"#;

const HOSTILE_TEXT: &str =
    r#"1 step in 10s: 0 added, 0 changed, 0 destroyed, 1 not ended, no summary
one at a time

                                      0s              2s              4s               6s              8s
<b> a["\u001b[31m</text>&"] …    ≥10s ░░░"#;

/// The settings of a picture in this form, of the whole of standard input.
fn settings_of(form: Form) -> Settings {
    Settings {
        form,
        rows: RowChoice {
            sort: Sort::Begin,
            limit: Some(40),
        },
        find: false,
        run: None,
        file: None,
    }
}

/// Draws the stream of these bytes into `out`. The input fails at its end if it is broken.
fn drawn(
    rt: &impl Files,
    alloc: Global,
    form: Form,
    bytes: &[u8],
    is_broken: bool,
    out: &mut WrittenOutput,
    faults: &mut Vec<u8>,
) -> Outcome<Result<Drawn, PictureFault>> {
    let settings = settings_of(form);
    let mut input = Given { bytes, is_broken };
    run_input(&PLAIN, rt, alloc, &settings, &mut input, out, faults)
}

/// Fails unless drawing the bytes, in which so many runs begin, gives `wanted` in this form.
fn draws(
    rt: &(impl Abort + Files),
    alloc: Global,
    form: Form,
    bytes: &str,
    runs: u64,
    wanted: &str,
) {
    let mut out = WrittenOutput::new(alloc, usize::MAX, ErrorKind::StorageFull);
    let mut faults = Vec::new(alloc);
    let outcome = drawn(
        rt,
        alloc,
        form,
        bytes.as_bytes(),
        false,
        &mut out,
        &mut faults,
    );
    assert_eq!(rt; outcome.status, 0);
    assert!(rt; outcome.answer == Some(Ok(Drawn { runs: Some(runs) })));
    assert_eq!(rt; faults.as_slice(), b"".as_slice());
    assert_eq!(rt; out.bytes.as_slice(), wanted.as_bytes());
}

/// Fails unless drawing the bytes gives this fault, status and text, and writes nothing.
fn refuses(
    rt: &(impl Abort + Files),
    alloc: Global,
    bytes: &str,
    is_broken: bool,
    fault: TimelineFault,
    expected: &str,
) {
    let mut out = WrittenOutput::new(alloc, usize::MAX, ErrorKind::StorageFull);
    let mut faults = Vec::new(alloc);
    let outcome = drawn(
        rt,
        alloc,
        TEXT,
        bytes.as_bytes(),
        is_broken,
        &mut out,
        &mut faults,
    );
    assert_eq!(rt; outcome.status, 2);
    assert!(rt; outcome.answer == Some(Err(PictureFault::NoTimeline(fault))));
    assert_eq!(rt; faults.as_slice(), expected.as_bytes());
    assert!(rt; out.bytes.is_empty());
}

#[test]
fn one_create(rt: HostRuntime) {
    draws(&rt, rt.alloc(), TEXT, ONE_CREATE, 1, ONE_CREATE_TEXT);
}

/// The writer fails at each byte of the text, and after the last one in a flush. Nothing is
/// reported if the reader of the output is gone.
#[test]
fn writer_that_fails(rt: HostRuntime) {
    let text = ONE_CREATE_TEXT.as_bytes();
    let expected = "applystream: the output could not be written\n";
    for room in 0..=text.len() {
        fails(
            &rt,
            rt.alloc(),
            room,
            ErrorKind::StorageFull,
            DrawFault::Unwritten,
            expected,
        );
        fails(
            &rt,
            rt.alloc(),
            room,
            ErrorKind::BrokenPipe,
            DrawFault::Gone,
            "",
        );
    }
}

/// Fails unless drawing one create ends with this result in a writer that fails after `room` bytes.
fn fails(
    rt: &(impl Abort + Files),
    alloc: Global,
    room: usize,
    kind: ErrorKind,
    fault: DrawFault,
    expected: &str,
) {
    let mut out = WrittenOutput::new(alloc, room, kind);
    let mut faults = Vec::new(alloc);
    let outcome = drawn(
        rt,
        alloc,
        TEXT,
        ONE_CREATE.as_bytes(),
        false,
        &mut out,
        &mut faults,
    );
    assert_eq!(rt; outcome.status, 3);
    assert!(rt; outcome.answer == Some(Err(PictureFault::Undrawn(fault))));
    assert_eq!(rt; faults.as_slice(), expected.as_bytes());
    let front = ONE_CREATE_TEXT.as_bytes().get(..room).unwrap_or(&[]);
    assert_eq!(rt; out.bytes.as_slice(), front);
}

#[test]
fn streams_without_a_message(rt: HostRuntime) {
    let expected = "applystream: there is no message in the stream\n";
    refuses(
        &rt,
        rt.alloc(),
        "",
        false,
        TimelineFault::NoMessage,
        expected,
    );
    refuses(
        &rt,
        rt.alloc(),
        "{}\n{}\n",
        false,
        TimelineFault::NoMessage,
        expected,
    );
}

#[test]
fn reader_that_fails(rt: HostRuntime) {
    let mut out = WrittenOutput::new(rt.alloc(), usize::MAX, ErrorKind::StorageFull);
    let mut faults = Vec::new(rt.alloc());
    let outcome = drawn(
        &rt,
        rt.alloc(),
        TEXT,
        ONE_CREATE.as_bytes(),
        true,
        &mut out,
        &mut faults,
    );
    let expected = "applystream: the stream could not be read\n";
    assert_eq!(rt; outcome.status, 2);
    assert_eq!(rt; faults.as_slice(), expected.as_bytes());
    assert!(rt; out.bytes.is_empty());
}

/// Views a file of one create, which may fail at its end. Fails unless the status, the begin of the
/// report and the picture are these, and nothing of the input is read.
fn leaves_the_input(
    rt: &impl Abort,
    alloc: Global,
    is_broken: bool,
    status: u8,
    expected: &str,
    wanted: &str,
) {
    let disk = Disk {
        bytes: ONE_CREATE.as_bytes(),
        is_broken,
    };
    let name = String::from_str(alloc, "stream.jsonl").expect(rt, "memory");
    let mut input = Given {
        bytes: ONE_CREATE.as_bytes(),
        is_broken: false,
    };
    let mut out = WrittenOutput::new(alloc, usize::MAX, ErrorKind::StorageFull);
    let mut faults = Vec::new(alloc);
    let words = array::from_ref(&name);
    let outcome = run_tool(
        &PLAIN,
        &disk,
        alloc,
        words,
        false,
        &mut input,
        &mut out,
        &mut faults,
    );
    assert_eq!(rt; outcome.status, status);
    assert!(rt; faults.as_slice().starts_with(expected.as_bytes()));
    assert_eq!(rt; out.bytes.as_slice(), wanted.as_bytes());
    assert_eq!(rt; input.bytes, ONE_CREATE.as_bytes());
}

/// Nothing of the input is read if a file is viewed, whole or not: a job may hold the input open.
#[test]
fn input_next_to_a_file(rt: HostRuntime) {
    leaves_the_input(&rt, rt.alloc(), false, 0, "", ONE_CREATE_TEXT);
    let expected = "applystream: the file stream.jsonl could not be read: ";
    leaves_the_input(&rt, rt.alloc(), true, 2, expected, "");
}

/// Texts of a stream steer no terminal, and are no markup.
#[test]
fn hostile_texts(rt: HostRuntime) {
    let mut out = WrittenOutput::new(rt.alloc(), usize::MAX, ErrorKind::StorageFull);
    let mut faults = Vec::new(rt.alloc());
    let outcome = drawn(
        &rt,
        rt.alloc(),
        TEXT,
        HOSTILE.as_bytes(),
        false,
        &mut out,
        &mut faults,
    );
    assert_eq!(rt; outcome.status, 0);
    assert!(rt; out.bytes.as_slice().starts_with(HOSTILE_TEXT.as_bytes()));
    let mut svg = WrittenOutput::new(rt.alloc(), usize::MAX, ErrorKind::StorageFull);
    let outcome = drawn(
        &rt,
        rt.alloc(),
        Form::Svg,
        HOSTILE.as_bytes(),
        false,
        &mut svg,
        &mut faults,
    );
    assert_eq!(rt; outcome.status, 0);
    let label = r#"* a[&quot;\u001b[31m&lt;/text&gt;&amp;&quot;]</text>"#;
    assert!(rt; has(svg.bytes.as_slice(), label.as_bytes()));
    assert!(rt; !has(svg.bytes.as_slice(), b"<b>"));
}

/// Whether the bytes contain `wanted`.
fn has(bytes: &[u8], wanted: &[u8]) -> bool {
    bytes
        .windows(wanted.len().max(1))
        .any(|part| part == wanted)
}
