//! Tests of what the contracts don't cover: calls succeed with ample memory, and whole lines give
//! values worked out by hand.

use apply_json::Scratch;
use std::alloc::Global;
use std::process::Abort;
use stream_record_lines::read_stated_line;

/// Lines, and what they state.
const LINES: [(&str, &str); 18] = [
    (r#"{}"#, "NoMessage"),
    (r#"{"type":1}"#, "NoMessage"),
    (
        r#"{"type":"version","@timestamp":"1970-01-01T00:00:00.499999Z","ui":"1.2"}"#,
        "Message(StatedMessage { second: Some(0), event: Version { ui: Some(Text { inner: \"1.2\" }) } })",
    ),
    (
        r#"{"type":"log","@timestamp":"1970-01-01T02:00:01.5+02:00"}"#,
        "Message(StatedMessage { second: Some(2), event: Other })",
    ),
    (
        r#"{"type":"log","@timestamp":"1969-12-31T23:59:58.5Z"}"#,
        "Message(StatedMessage { second: Some(-1), event: Other })",
    ),
    (
        r#"{"type":"apply_start","hook":{"resource":{"addr":"a"},"action":"delete","id_value":"7"}}"#,
        "Message(StatedMessage { second: None, event: Step(Step { address: Text { inner: \"a\" }, kind: Delete, stage: Began { id: Some(Text { inner: \"7\" }) } }) })",
    ),
    (
        r#"{"type":"apply_progress","hook":{"resource":{"addr":"a"},"action":"create","elapsed_seconds":10}}"#,
        "Message(StatedMessage { second: None, event: Step(Step { address: Text { inner: \"a\" }, kind: Create, stage: Progress { seconds: 10 } }) })",
    ),
    (
        r#"{"type":"apply_complete","hook":{"resource":{"addr":"a"},"action":"update","elapsed_seconds":3,"id_key":"id"}}"#,
        "Message(StatedMessage { second: None, event: Step(Step { address: Text { inner: \"a\" }, kind: Update, stage: Completed { seconds: 3, id_key: Some(Text { inner: \"id\" }), id: None } }) })",
    ),
    (
        r#"{"type":"apply_errored","hook":{"resource":{"addr":"a"},"action":"read","elapsed_seconds":1.5}}"#,
        "Message(StatedMessage { second: None, event: Malformed })",
    ),
    (
        r#"{"type":"apply_start","hook":{"resource":{"addr":"a"},"action":"noop"}}"#,
        "Message(StatedMessage { second: None, event: Other })",
    ),
    (
        r#"{"type":"provision_start","hook":{"resource":{"addr":"a"},"provisioner":""}}"#,
        "Message(StatedMessage { second: None, event: Provisioner(Provisioner { address: Text { inner: \"a\" }, name: Text { inner: \"?\" }, stage: Began }) })",
    ),
    (
        r#"{"type":"provision_progress","hook":{"resource":{"addr":"a"},"provisioner":"p","output":""}}"#,
        "Message(StatedMessage { second: None, event: Provisioner(Provisioner { address: Text { inner: \"a\" }, name: Text { inner: \"p\" }, stage: Wrote { output: Text { inner: \"\" } } }) })",
    ),
    (
        r#"{"type":"provision_progress","hook":{"resource":{"addr":"a"}}}"#,
        "Message(StatedMessage { second: None, event: Malformed })",
    ),
    (
        r#"{"type":"ephemeral_op_start"}"#,
        "Message(StatedMessage { second: None, event: Ephemeral })",
    ),
    (
        r#"{"type":"change_summary","changes":{"operation":"destroy"}}"#,
        "Message(StatedMessage { second: None, event: Summary(Destroy) })",
    ),
    (
        r#"{"type":"diagnostic","diagnostic":{"severity":"warning","summary":"s","address":"","range": {"z":1.50, "a":[ ]},"snippet":"no"}}"#,
        "Message(StatedMessage { second: None, event: Diagnostic(Note { severity: Warning, diag: Diag { summary: Text { inner: \"s\" }, detail: Text { inner: \"\" }, range: Some(Text { inner: \"{\\\"z\\\":1.50,\\\"a\\\":[]}\" }), snippet: None }, address: None }) })",
    ),
    (
        r#"{"type":"outputs","outputs":{"z":{"type":"number","value":-0.10,"sensitive":false},"b":{"action":"create","type":"string"},"n":{"value":1},"a":{"sensitive":true,"type":["list","string"]},"u":{"type":null}}}"#,
        "Message(StatedMessage { second: None, event: Outputs(Outputs { outputs: [Output { name: Text { inner: \"z\" }, is_sensitive: false, type_json: Text { inner: \"\\\"number\\\"\" }, value_json: Some(Text { inner: \"-0.10\" }) }, Output { name: Text { inner: \"a\" }, is_sensitive: true, type_json: Text { inner: \"[\\\"list\\\",\\\"string\\\"]\" }, value_json: None }] }) })",
    ),
    (
        r#"{"type":"outputs","outputs":[]}"#,
        "Message(StatedMessage { second: None, event: Outputs(Outputs { outputs: [] }) })",
    ),
];

/// Lines of a log, and what they state.
const LOG: [(&str, &str); 5] = [
    (r#"10:00 {"type":"version"}"#, "Foreign"),
    (r#"10:00 {"@level":"info"} done"#, "NoMessage"),
    (r#"10:00 {"@level":"info","#, "NoMessage"),
    (
        r#"10:00 {"@level":"info","type":"version"} done"#,
        "Message(StatedMessage { second: None, event: Version { ui: None } })",
    ),
    (
        r#"10:00 {"@level":"info","type":"resource_drift"}"#,
        "Message(StatedMessage { second: None, event: Other })",
    ),
];

/// What the line states, as text.
fn text_of(rt: &impl Abort, alloc: Global, find: bool, line: &str) -> String {
    let mut scratch = Scratch::new(alloc);
    let stated = read_stated_line(alloc, &mut scratch, find, line.as_bytes());
    let stated = stated.expect(rt, "memory");
    format!(in alloc; "{stated:?}").expect(rt, "memory")
}

#[test]
fn lines(rt: HostRuntime) {
    for (line, text) in LINES.iter() {
        assert!(rt; text_of(&rt, rt.alloc(), false, line).as_str() == *text);
    }
}

#[test]
fn lines_of_a_log(rt: HostRuntime) {
    for (line, text) in LOG.iter() {
        assert!(rt; text_of(&rt, rt.alloc(), true, line).as_str() == *text);
    }
}
