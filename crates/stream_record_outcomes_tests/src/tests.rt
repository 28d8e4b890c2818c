//! Tests of what the contracts don't cover: with ample memory, the lines of a stream give the
//! outcomes that were worked out apart from this program.

use apply_json::Scratch;
use apply_model::Note;
use apply_plan::{Plan, read_plan};
use std::alloc::Global;
use std::process::Abort;
use stream_record_lines::{Event, StatedLine, StatedMessage, read_stated_line};
use stream_record_outcomes::{Circumstances, outcomes};
use stream_record_steps::BegunSteps;

/// A delete, a create, a read, an update, and a create that never begins.
const PLAN: &str = r#"{"format_version":"1.2","resource_changes":[
{"address":"a.d","mode":"managed","type":"a","name":"d","change":{"actions":["delete"],"before":{"id":"d"}}},
{"address":"a.c","mode":"managed","type":"a","name":"c","change":{"actions":["create"]}},
{"address":"data.a.r","mode":"data","type":"a","name":"r","change":{"actions":["read"]}},
{"address":"a.u","mode":"managed","type":"a","name":"u","change":{"actions":["update"],"before":{"id":"u"}}},
{"address":"a.n","mode":"managed","type":"a","name":"n","change":{"actions":["create"]}}]}"#;

/// A delete with a provisioner, a create that its second provisioner makes fail, a read that only
/// warns, an update that warns, and an error of no step.
const LINES: [&str; 21] = [
    r#"{"type":"apply_start","@timestamp":"1970-01-01T00:00:10Z","hook":{"resource":{"addr":"a.d"},"action":"delete","id_value":"d"}}"#,
    r#"{"type":"provision_start","@timestamp":"1970-01-01T00:00:10Z","hook":{"resource":{"addr":"a.d"},"provisioner":"p"}}"#,
    r#"{"type":"provision_progress","@timestamp":"1970-01-01T00:00:11Z","hook":{"resource":{"addr":"a.d"},"provisioner":"p","output":"stop"}}"#,
    r#"{"type":"provision_complete","@timestamp":"1970-01-01T00:00:12Z","hook":{"resource":{"addr":"a.d"},"provisioner":"p"}}"#,
    r#"{"type":"apply_complete","@timestamp":"1970-01-01T00:00:15Z","hook":{"resource":{"addr":"a.d"},"action":"delete","elapsed_seconds":5,"id_key":"id","id_value":"d"}}"#,
    r#"{"type":"apply_start","@timestamp":"1970-01-01T00:00:15Z","hook":{"resource":{"addr":"a.c"},"action":"create"}}"#,
    r#"{"type":"provision_start","@timestamp":"1970-01-01T00:00:17Z","hook":{"resource":{"addr":"a.c"},"provisioner":"p"}}"#,
    r#"{"type":"provision_progress","@timestamp":"1970-01-01T00:00:26Z","hook":{"resource":{"addr":"a.c"},"provisioner":"p","output":"one"}}"#,
    r#"{"type":"apply_progress","@timestamp":"1970-01-01T00:00:25Z","hook":{"resource":{"addr":"a.c"},"action":"create","elapsed_seconds":10}}"#,
    r#"{"type":"provision_errored","@timestamp":"1970-01-01T00:00:26Z","hook":{"resource":{"addr":"a.c"},"provisioner":"p"}}"#,
    r#"{"type":"provision_start","@timestamp":"1970-01-01T00:00:26Z","hook":{"resource":{"addr":"a.c"},"provisioner":""}}"#,
    r#"{"type":"provision_progress","@timestamp":"1970-01-01T00:00:29Z","hook":{"resource":{"addr":"a.c"},"provisioner":"","output":"two"}}"#,
    r#"{"type":"provision_errored","@timestamp":"1970-01-01T00:00:29Z","hook":{"resource":{"addr":"a.c"},"provisioner":""}}"#,
    r#"{"type":"apply_errored","@timestamp":"1970-01-01T00:00:29Z","hook":{"resource":{"addr":"a.c"},"action":"create","elapsed_seconds":14}}"#,
    r#"{"type":"apply_start","@timestamp":"1970-01-01T00:00:30Z","hook":{"resource":{"addr":"data.a.r"},"action":"read"}}"#,
    r#"{"type":"apply_start","@timestamp":"1970-01-01T00:00:31Z","hook":{"resource":{"addr":"a.u"},"action":"update","id_value":"u"}}"#,
    r#"{"type":"apply_complete","@timestamp":"1970-01-01T00:00:33Z","hook":{"resource":{"addr":"a.u"},"action":"update","elapsed_seconds":2,"id_key":"arn","id_value":"x"}}"#,
    r#"{"type":"diagnostic","diagnostic":{"severity":"error","summary":"exit status 1","detail":"","address":"a.c"}}"#,
    r#"{"type":"diagnostic","diagnostic":{"severity":"warning","summary":"check failed","detail":"","address":"data.a.r"}}"#,
    r#"{"type":"diagnostic","diagnostic":{"severity":"warning","summary":"deprecated","detail":"","address":"a.u"}}"#,
    r#"{"type":"diagnostic","diagnostic":{"severity":"error","summary":"quota","detail":"none left"}}"#,
];

/// The outcome of each step.
const STEPS: [&str; 5] = [
    r#"Some(RecordedStep { outcome: Outcome { seconds: 3, provisioners: Provisioners { provisioners: [Provisioner { name: Text { inner: "p" }, seconds: 2, output: TimedTexts { texts: [TimedText { after: 1, text: Text { inner: "stop" } }] }, failed: None, may_fail: false }] }, result: Done { id: None, warning: None }, after: Waits { waits: [] } }, fate: Done, warnings: StepWarnings { warnings: [] } })"#,
    r#"Some(RecordedStep { outcome: Outcome { seconds: 2, provisioners: Provisioners { provisioners: [Provisioner { name: Text { inner: "p" }, seconds: 9, output: TimedTexts { texts: [TimedText { after: 7, text: Text { inner: "one" } }] }, failed: Some(Diag { summary: Text { inner: "failed" }, detail: Text { inner: "" }, range: None, snippet: None }), may_fail: true }, Provisioner { name: Text { inner: "?" }, seconds: 3, output: TimedTexts { texts: [TimedText { after: 3, text: Text { inner: "two" } }] }, failed: Some(Diag { summary: Text { inner: "exit status 1" }, detail: Text { inner: "" }, range: None, snippet: None }), may_fail: false }] }, result: Done { id: None, warning: None }, after: Waits { waits: [] } }, fate: Failed, warnings: StepWarnings { warnings: [] } })"#,
    r#"Some(RecordedStep { outcome: Outcome { seconds: 0, provisioners: Provisioners { provisioners: [] }, result: Warned { diag: Diag { summary: Text { inner: "check failed" }, detail: Text { inner: "" }, range: None, snippet: None } }, after: Waits { waits: [] } }, fate: Warned, warnings: StepWarnings { warnings: [] } })"#,
    r#"Some(RecordedStep { outcome: Outcome { seconds: 2, provisioners: Provisioners { provisioners: [] }, result: Done { id: Some(Text { inner: "x" }), warning: Some(Diag { summary: Text { inner: "deprecated" }, detail: Text { inner: "" }, range: None, snippet: None }) }, after: Waits { waits: [] } }, fate: Done, warnings: StepWarnings { warnings: [OtherId { key: Text { inner: "arn" } }] } })"#,
    r#"None"#,
];

/// The diagnostic of no step.
const LOOSE: &str =
    r#"[Note { severity: Error, diag: Diag { summary: Text { inner: "quota" }, detail: Text { inner: "none left" }, range: None, snippet: None }, address: None }]"#;

/// The plan.
fn plan(rt: &impl Abort, alloc: Global) -> Plan {
    read_plan(alloc, PLAN.as_bytes()).ok().expect(rt, "a plan")
}

/// The message of a line.
fn message(rt: &impl Abort, alloc: Global, line: &str) -> StatedMessage {
    let mut scratch = Scratch::new(alloc);
    let stated = read_stated_line(alloc, &mut scratch, false, line.as_bytes());
    match stated.expect(rt, "memory") {
        StatedLine::Message(message) => message,
        StatedLine::Foreign | StatedLine::NoMessage => panic!(rt; "no message"),
    }
}

/// Takes an event on that line.
fn take(
    rt: &impl Abort,
    begun: &mut BegunSteps<'_>,
    notes: &mut Vec<Note>,
    line: u64,
    second: i64,
    event: Event,
) {
    match event {
        Event::Step(step) => begun.take_step(line, second, step).expect(rt, "memory"),
        Event::Provisioner(it) => begun
            .take_provisioner(line, second, it)
            .expect(rt, "memory"),
        Event::Diagnostic(note) => notes.push(note).expect(rt, "memory"),
        _ => panic!(rt; "another event"),
    }
}

/// Takes all lines, and returns the diagnostics.
fn take_all(rt: &impl Abort, alloc: Global, begun: &mut BegunSteps<'_>) -> Vec<Note> {
    let mut notes = Vec::new(alloc);
    let mut second = 0;
    for (place, line) in LINES.iter().enumerate() {
        let message = message(rt, alloc, line);
        second = message.second.unwrap_or(second);
        let number = place as u64 + 1;
        take(rt, begun, &mut notes, number, second, message.event);
    }
    notes
}

#[test]
fn a_stream(rt: HostRuntime) {
    let alloc = rt.alloc();
    let plan = plan(&rt, alloc);
    let mut begun = BegunSteps::new(alloc, &plan).expect(&rt, "memory");
    let notes = take_all(&rt, alloc, &mut begun);
    let circumstances = Circumstances {
        is_default_form: false,
        is_partial: false,
        is_errored: false,
        cut_off_at: None,
    };
    let recorded = outcomes(alloc, &begun, &notes, &circumstances).expect(&rt, "memory");
    assert!(rt; recorded.steps.len() == STEPS.len());
    for (step, expected) in recorded.steps.iter().zip(STEPS.iter()) {
        let text = format!(in alloc; "{step:?}").expect(&rt, "memory");
        assert!(rt; text.as_str() == *expected);
    }
    let loose = format!(in alloc; "{:?}", recorded.loose).expect(&rt, "memory");
    assert!(rt; loose.as_str() == LOOSE);
}
