//! Tests of what the contracts don't cover: with ample memory, the lines of a stream give the steps
//! that were worked out apart from this program.

use apply_json::Scratch;
use apply_plan::{Plan, read_plan};
use std::alloc::Global;
use std::process::Abort;
use stream_record_lines::{Event, StatedLine, StatedMessage, read_stated_line};
use stream_record_steps::{BegunSteps, Tally};

/// A replacement, two deposed objects at its address, an update, a read, and a replacement that
/// creates first.
const PLAN: &str = r#"{"format_version":"1.2","resource_changes":[
{"address":"a.a","mode":"managed","type":"a","name":"a","change":{"actions":["delete","create"],"before":{"id":"i1"}}},
{"address":"a.a","mode":"managed","type":"a","name":"a","deposed":"k1","change":{"actions":["delete"],"before":{"id":"i2"}}},
{"address":"a.a","mode":"managed","type":"a","name":"a","deposed":"k2","change":{"actions":["delete"],"before":{"id":"i3"}}},
{"address":"a.b","mode":"managed","type":"a","name":"b","change":{"actions":["update"],"before":{"id":"b"}}},
{"address":"data.a.c","mode":"data","type":"a","name":"c","change":{"actions":["read"]}},
{"address":"a.e","mode":"managed","type":"a","name":"e","change":{"actions":["create","delete"],"before":{"id":"e"}}}]}"#;

/// Starts, progress, ends and provisioners, also of no step.
const LINES: [&str; 24] = [
    r#"{"type":"apply_start","@timestamp":"1970-01-01T00:00:10Z","hook":{"resource":{"addr":"a.a"},"action":"delete","id_value":"i3"}}"#,
    r#"{"type":"apply_start","@timestamp":"1970-01-01T00:00:11Z","hook":{"resource":{"addr":"a.a"},"action":"delete","id_value":"i1"}}"#,
    r#"{"type":"apply_start","@timestamp":"1970-01-01T00:00:12Z","hook":{"resource":{"addr":"a.a"},"action":"delete","id_value":"z"}}"#,
    r#"{"type":"apply_start","hook":{"resource":{"addr":"a.a"},"action":"delete","id_value":"i2"}}"#,
    r#"{"type":"apply_start","hook":{"resource":{"addr":"a.a"},"action":"delete"}}"#,
    r#"{"type":"apply_start","hook":{"resource":{"addr":"a.a"},"action":"update"}}"#,
    r#"{"type":"apply_progress","@timestamp":"1970-01-01T00:00:22Z","hook":{"resource":{"addr":"a.a"},"action":"delete","elapsed_seconds":10}}"#,
    r#"{"type":"provision_start","hook":{"resource":{"addr":"a.a"},"provisioner":"x"}}"#,
    r#"{"type":"provision_progress","hook":{"resource":{"addr":"a.a"},"provisioner":"x","output":"o"}}"#,
    r#"{"type":"apply_complete","@timestamp":"1970-01-01T00:00:23Z","hook":{"resource":{"addr":"a.a"},"action":"delete","elapsed_seconds":12}}"#,
    r#"{"type":"provision_progress","hook":{"resource":{"addr":"a.a"},"provisioner":"y","output":"p"}}"#,
    r#"{"type":"apply_start","hook":{"resource":{"addr":"a.a"},"action":"create"}}"#,
    r#"{"type":"provision_complete","hook":{"resource":{"addr":"a.a"},"provisioner":"x"}}"#,
    r#"{"type":"apply_errored","@timestamp":"1970-01-01T00:00:24Z","hook":{"resource":{"addr":"a.a"},"action":"delete","elapsed_seconds":99}}"#,
    r#"{"type":"apply_progress","hook":{"resource":{"addr":"data.a.c"},"action":"read","elapsed_seconds":10}}"#,
    r#"{"type":"apply_start","hook":{"action":"create"}}"#,
    r#"{"type":"apply_start","hook":{"resource":{"addr":"data.a.c"},"action":"read"}}"#,
    r#"{"type":"apply_start","@timestamp":"1970-01-01T00:00:25Z","hook":{"resource":{"addr":"a.e"},"action":"create"}}"#,
    r#"{"type":"apply_errored","@timestamp":"1970-01-01T00:00:26Z","hook":{"resource":{"addr":"a.e"},"action":"create","elapsed_seconds":1}}"#,
    r#"{"type":"apply_start","hook":{"resource":{"addr":"a.e"},"action":"delete","id_value":"e"}}"#,
    r#"{"type":"apply_start","hook":{"resource":{"addr":"a.b"},"action":"update","id_value":"b"}}"#,
    r#"{"type":"provision_errored","hook":{"resource":{"addr":"a.q"},"provisioner":"x"}}"#,
    r#"{"type":"provision_errored","hook":{"resource":{"addr":"a.a"},"provisioner":"x"}}"#,
    r#"{"type":"apply_complete","@timestamp":"1970-01-01T00:00:27Z","hook":{"resource":{"addr":"a.a"},"action":"create","elapsed_seconds":4,"id_key":"id","id_value":"i4"}}"#,
];

/// What is known of each step in the end.
const STEPS: [&str; 8] = [
    r#"Some(BegunStep { kind: Delete, line: 2, second: 11, previous: Some(1), facts: StepFacts { facts: [StepFact { second: 22, stated: ProvisionerBegan { name: Text { inner: "x" } } }, StepFact { second: 22, stated: Wrote { output: Text { inner: "o" } } }] }, end: Some(StepEnd { line: 10, seconds: 12, result: Completed { id_key: None, id: None } }) })"#,
    r#"Some(BegunStep { kind: Create, line: 12, second: 23, previous: Some(10), facts: StepFacts { facts: [StepFact { second: 23, stated: ProvisionerEnded }, StepFact { second: 26, stated: ProvisionerFailed }] }, end: Some(StepEnd { line: 24, seconds: 4, result: Completed { id_key: Some(Text { inner: "id" }), id: Some(Text { inner: "i4" }) } }) })"#,
    r#"Some(BegunStep { kind: Delete, line: 3, second: 12, previous: Some(2), facts: StepFacts { facts: [StepFact { second: 22, stated: Progress { seconds: 10 } }] }, end: None })"#,
    r#"Some(BegunStep { kind: Delete, line: 1, second: 10, previous: None, facts: StepFacts { facts: [StepFact { second: 23, stated: Wrote { output: Text { inner: "p" } } }] }, end: Some(StepEnd { line: 14, seconds: 99, result: Failed }) })"#,
    r#"Some(BegunStep { kind: Update, line: 21, second: 26, previous: Some(20), facts: StepFacts { facts: [] }, end: None })"#,
    r#"Some(BegunStep { kind: Read, line: 17, second: 24, previous: Some(15), facts: StepFacts { facts: [] }, end: None })"#,
    r#"Some(BegunStep { kind: Create, line: 18, second: 25, previous: Some(17), facts: StepFacts { facts: [] }, end: Some(StepEnd { line: 19, seconds: 1, result: Failed }) })"#,
    r#"None"#,
];

const STRAYS: &str =
    r#"[Stray { line: 4, kind: Delete, address: Text { inner: "a.a" } }, Stray { line: 6, kind: Update, address: Text { inner: "a.a" } }, Stray { line: 20, kind: Delete, address: Text { inner: "a.e" } }]"#;

/// The plan.
fn plan(rt: &impl Abort, alloc: Global) -> Plan {
    read_plan(alloc, PLAN.as_bytes()).ok().expect(rt, "a plan")
}

/// The message of a line.
fn message(rt: &impl Abort, alloc: Global, line: &str) -> StatedMessage {
    let mut scratch = Scratch::new(alloc);
    let stated = read_stated_line(alloc, &mut scratch, false, line.as_bytes());
    match stated.expect(rt, "memory") {
        StatedLine::Message(message) => message,
        StatedLine::Foreign | StatedLine::NoMessage => panic!(rt; "no message"),
    }
}

/// Takes an event on that line.
fn take(rt: &impl Abort, begun: &mut BegunSteps<'_>, line: u64, second: i64, event: Event) {
    match event {
        Event::Step(step) => begun.take_step(line, second, step).expect(rt, "memory"),
        Event::Provisioner(it) => begun
            .take_provisioner(line, second, it)
            .expect(rt, "memory"),
        Event::Malformed => begun.take_malformed(line),
        _ => panic!(rt; "an event of no step"),
    }
}

/// Takes all lines.
fn take_all(rt: &impl Abort, alloc: Global, begun: &mut BegunSteps<'_>) {
    let mut second = 0;
    for (place, line) in LINES.iter().enumerate() {
        let message = message(rt, alloc, line);
        second = message.second.unwrap_or(second);
        take(rt, begun, place as u64 + 1, second, message.event);
    }
}

/// Fails unless this is known of the step at the place.
fn check_step(
    rt: &impl Abort,
    alloc: Global,
    begun: &BegunSteps<'_>,
    place: usize,
    expected: &str,
) {
    let known = begun.step(place);
    let text = format!(in alloc; "{known:?}").expect(rt, "memory");
    assert!(rt; text.as_str() == expected);
}

/// Fails unless these are the strays.
fn check_strays(rt: &impl Abort, alloc: Global, begun: &BegunSteps<'_>, expected: &str) {
    let strays = begun.strays();
    let text = format!(in alloc; "{strays:?}").expect(rt, "memory");
    assert!(rt; text.as_str() == expected);
}

#[test]
fn a_stream(rt: HostRuntime) {
    let alloc = rt.alloc();
    let plan = plan(&rt, alloc);
    let mut begun = BegunSteps::new(alloc, &plan).expect(&rt, "memory");
    assert!(rt; !begun.has_starts());
    take_all(&rt, alloc, &mut begun);
    for (place, expected) in STEPS.iter().enumerate() {
        check_step(&rt, alloc, &begun, place, expected);
    }
    check_strays(&rt, alloc, &begun, STRAYS);
    assert!(rt; begun.has_starts() && begun.most() == 3);
    assert!(rt; begun.begins() == [3, 0, 2, 1, 5, 6, 4].as_slice());
    assert!(rt; begun.ends() == [0, 3, 6, 1].as_slice());
    assert!(rt;
        begun.odd()
            == Tally {
                first: Some(15),
                count: 3
            }
    );
    assert!(rt; begun.planned().len() == STEPS.len());
}
