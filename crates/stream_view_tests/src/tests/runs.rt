//! Several runs in one input.

use super::{Given, PLAIN, TEXT, WrittenOutput, drawn, settings_of};
use std::alloc::Global;
use std::io::ErrorKind;
use std::process::Abort;
use std::rt::Files;
use stream_runs::RunChoice;
use stream_tool::run_input;
use stream_view::{Drawn, Form};

/// Three `version` messages, the second of which has no valid timestamp.
const THREE_RUNS: &str = r#"{"@timestamp":"1970-01-01T00:00:00Z","type":"version"}
{"@timestamp":"yesterday","type":"version"}
{"@timestamp":"1970-01-01T00:00:01Z","type":"outputs"}
{"@timestamp":"1970-01-01T00:00:02Z","type":"version"}
"#;

/// Two runs in a log.
const LOGGED_RUNS: &str =
    r#"1: {"@level":"info","@timestamp":"1970-01-01T00:00:00Z","type":"version"}
2: Applying.
3: {"@level":"info","@timestamp":"1970-01-01T00:00:00Z","type":"version"}"#;

const THREE: &str = "applystream: 3 runs are there: --run 1 to --run 3, or --run last, takes one\n";

const TWO: &str = "applystream: 2 runs are there: --run 1 to --run 2, or --run last, takes one\n";

/// Fails unless drawing the bytes ends well with this number of runs and this text on standard
/// error.
fn suggests(
    rt: &(impl Abort + Files),
    alloc: Global,
    form: Form,
    find: bool,
    run: Option<RunChoice>,
    bytes: &str,
    runs: Option<u64>,
    expected: &str,
) {
    let mut settings = settings_of(form);
    settings.find = find;
    settings.run = run;
    let mut input = Given {
        bytes: bytes.as_bytes(),
        is_broken: false,
    };
    let mut out = WrittenOutput::new(alloc, usize::MAX, ErrorKind::StorageFull);
    let mut faults = Vec::new(alloc);
    let outcome = run_input(
        &PLAIN,
        rt,
        alloc,
        &settings,
        &mut input,
        &mut out,
        &mut faults,
    );
    assert_eq!(rt; outcome.status, 0);
    assert!(rt; outcome.answer == Some(Ok(Drawn { runs })));
    assert_eq!(rt; faults.as_slice(), expected.as_bytes());
    assert!(rt; !out.bytes.is_empty());
}

/// After a picture of several runs, in each form, the option that takes one is named.
#[test]
fn several_runs(rt: HostRuntime) {
    let alloc = rt.alloc();
    for form in [TEXT, Form::Svg, Form::Json, Form::Markdown] {
        suggests(&rt, alloc, form, false, None, THREE_RUNS, Some(3), THREE);
    }
    suggests(&rt, alloc, TEXT, true, None, LOGGED_RUNS, Some(2), TWO);
}

/// Nothing is reported of a run that was chosen.
#[test]
fn chosen_run(rt: HostRuntime) {
    let alloc = rt.alloc();
    let last = Some(RunChoice::Last);
    suggests(&rt, alloc, TEXT, false, last, THREE_RUNS, None, "");
    suggests(&rt, alloc, TEXT, true, last, LOGGED_RUNS, None, "");
}

/// Nothing is reported of several runs if the picture failed.
#[test]
fn several_runs_without_a_picture(rt: HostRuntime) {
    let mut out = WrittenOutput::new(rt.alloc(), 10, ErrorKind::BrokenPipe);
    let mut faults = Vec::new(rt.alloc());
    let bytes = THREE_RUNS.as_bytes();
    let outcome = drawn(&rt, rt.alloc(), TEXT, bytes, false, &mut out, &mut faults);
    assert_eq!(rt; outcome.status, 3);
    assert_eq!(rt; faults.as_slice(), b"".as_slice());
}
