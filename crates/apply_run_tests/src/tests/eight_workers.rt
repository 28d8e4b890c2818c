//! Eight workers over a bus with room for one message.

use super::watching::{EACH, Watch, word_is};
use super::*;

/// A plan with ten changes: one of each kind of step, both replacements, one with nothing to do,
/// and three more creates.
const TEN_CHANGES: &str =
    r#"{"format_version":"1.2","terraform_version":"1.9.0","resource_changes":[{"address":"null_resource.a","mode":"managed","type":"null_resource","name":"a","change":{"actions":["create"]}},{"address":"null_resource.b","mode":"managed","type":"null_resource","name":"b","change":{"actions":["update"],"before":{"id":"41"}}},{"address":"null_resource.c","mode":"managed","type":"null_resource","name":"c","change":{"actions":["delete"],"before":{"id":"42"}}},{"address":"null_resource.d","mode":"managed","type":"null_resource","name":"d","change":{"actions":["delete","create"]}},{"address":"null_resource.e","mode":"managed","type":"null_resource","name":"e","change":{"actions":["create","delete"]}},{"address":"data.null_resource.f","mode":"data","type":"null_resource","name":"f","change":{"actions":["read"]}},{"address":"null_resource.g","mode":"managed","type":"null_resource","name":"g","change":{"actions":["no-op"]}},{"address":"null_resource.h","mode":"managed","type":"null_resource","name":"h","change":{"actions":["create"]}},{"address":"null_resource.i","mode":"managed","type":"null_resource","name":"i","change":{"actions":["create"]}},{"address":"null_resource.j","mode":"managed","type":"null_resource","name":"j","change":{"actions":["create"]}}]}"#;

/// The script of the plan: a destroy and a create fail, and another create warns.
const TEN_SPANS: &str =
    r#"{"changes":[{"address":"null_resource.a","steps":[{"seconds":12,"id":"x1"}]},{"address":"null_resource.b","steps":[{"seconds":25}]},{"address":"null_resource.d","steps":[{"seconds":3},{"seconds":11}]},{"address":"null_resource.e","steps":[{"seconds":2},{"seconds":4,"failed":{"summary":"boom"}}]},{"address":"data.null_resource.f","steps":[{"seconds":1}]},{"address":"null_resource.h","steps":[{"seconds":7,"warning":{"summary":"slow","detail":"It took long."}}]},{"address":"null_resource.i","steps":[{"seconds":5,"failed":{"summary":"no","detail":"It was refused."}}]}]}"#;

/// The lines of the stream, without their timestamps. Each block begins with a text that only its
/// lines contain. The change with nothing to do has no lines.
const LINES: &str = r#""version"
{"@level":"info","@message":"Terraform 1.9.0","@module":"terraform.ui","@timestamp":"","terraform":"1.9.0","type":"version","ui":"1.0"}

"null_resource.a"
{"@level":"info","@message":"null_resource.a: Creating...","@module":"terraform.ui","@timestamp":"","hook":{"action":"create","resource":{"addr":"null_resource.a","implied_provider":"null","module":"","resource":"null_resource.a","resource_key":null,"resource_name":"a","resource_type":"null_resource"}},"type":"apply_start"}
{"@level":"info","@message":"null_resource.a: Still creating... [10s elapsed]","@module":"terraform.ui","@timestamp":"","hook":{"action":"create","elapsed_seconds":10,"resource":{"addr":"null_resource.a","implied_provider":"null","module":"","resource":"null_resource.a","resource_key":null,"resource_name":"a","resource_type":"null_resource"}},"type":"apply_progress"}
{"@level":"info","@message":"null_resource.a: Creation complete after 12s [id=x1]","@module":"terraform.ui","@timestamp":"","hook":{"action":"create","elapsed_seconds":12,"id_key":"id","id_value":"x1","resource":{"addr":"null_resource.a","implied_provider":"null","module":"","resource":"null_resource.a","resource_key":null,"resource_name":"a","resource_type":"null_resource"}},"type":"apply_complete"}

"null_resource.b"
{"@level":"info","@message":"null_resource.b: Modifying... [id=41]","@module":"terraform.ui","@timestamp":"","hook":{"action":"update","id_key":"id","id_value":"41","resource":{"addr":"null_resource.b","implied_provider":"null","module":"","resource":"null_resource.b","resource_key":null,"resource_name":"b","resource_type":"null_resource"}},"type":"apply_start"}
{"@level":"info","@message":"null_resource.b: Still modifying... [10s elapsed]","@module":"terraform.ui","@timestamp":"","hook":{"action":"update","elapsed_seconds":10,"resource":{"addr":"null_resource.b","implied_provider":"null","module":"","resource":"null_resource.b","resource_key":null,"resource_name":"b","resource_type":"null_resource"}},"type":"apply_progress"}
{"@level":"info","@message":"null_resource.b: Still modifying... [20s elapsed]","@module":"terraform.ui","@timestamp":"","hook":{"action":"update","elapsed_seconds":20,"resource":{"addr":"null_resource.b","implied_provider":"null","module":"","resource":"null_resource.b","resource_key":null,"resource_name":"b","resource_type":"null_resource"}},"type":"apply_progress"}
{"@level":"info","@message":"null_resource.b: Modifications complete after 25s","@module":"terraform.ui","@timestamp":"","hook":{"action":"update","elapsed_seconds":25,"resource":{"addr":"null_resource.b","implied_provider":"null","module":"","resource":"null_resource.b","resource_key":null,"resource_name":"b","resource_type":"null_resource"}},"type":"apply_complete"}

"null_resource.c"
{"@level":"info","@message":"null_resource.c: Destroying... [id=42]","@module":"terraform.ui","@timestamp":"","hook":{"action":"delete","id_key":"id","id_value":"42","resource":{"addr":"null_resource.c","implied_provider":"null","module":"","resource":"null_resource.c","resource_key":null,"resource_name":"c","resource_type":"null_resource"}},"type":"apply_start"}
{"@level":"info","@message":"null_resource.c: Destruction complete after 0s","@module":"terraform.ui","@timestamp":"","hook":{"action":"delete","elapsed_seconds":0,"resource":{"addr":"null_resource.c","implied_provider":"null","module":"","resource":"null_resource.c","resource_key":null,"resource_name":"c","resource_type":"null_resource"}},"type":"apply_complete"}

"null_resource.d"
{"@level":"info","@message":"null_resource.d: Destroying...","@module":"terraform.ui","@timestamp":"","hook":{"action":"delete","resource":{"addr":"null_resource.d","implied_provider":"null","module":"","resource":"null_resource.d","resource_key":null,"resource_name":"d","resource_type":"null_resource"}},"type":"apply_start"}
{"@level":"info","@message":"null_resource.d: Destruction complete after 3s","@module":"terraform.ui","@timestamp":"","hook":{"action":"delete","elapsed_seconds":3,"resource":{"addr":"null_resource.d","implied_provider":"null","module":"","resource":"null_resource.d","resource_key":null,"resource_name":"d","resource_type":"null_resource"}},"type":"apply_complete"}
{"@level":"info","@message":"null_resource.d: Creating...","@module":"terraform.ui","@timestamp":"","hook":{"action":"create","resource":{"addr":"null_resource.d","implied_provider":"null","module":"","resource":"null_resource.d","resource_key":null,"resource_name":"d","resource_type":"null_resource"}},"type":"apply_start"}
{"@level":"info","@message":"null_resource.d: Still creating... [10s elapsed]","@module":"terraform.ui","@timestamp":"","hook":{"action":"create","elapsed_seconds":10,"resource":{"addr":"null_resource.d","implied_provider":"null","module":"","resource":"null_resource.d","resource_key":null,"resource_name":"d","resource_type":"null_resource"}},"type":"apply_progress"}
{"@level":"info","@message":"null_resource.d: Creation complete after 11s","@module":"terraform.ui","@timestamp":"","hook":{"action":"create","elapsed_seconds":11,"resource":{"addr":"null_resource.d","implied_provider":"null","module":"","resource":"null_resource.d","resource_key":null,"resource_name":"d","resource_type":"null_resource"}},"type":"apply_complete"}

"null_resource.e"
{"@level":"info","@message":"null_resource.e: Creating...","@module":"terraform.ui","@timestamp":"","hook":{"action":"create","resource":{"addr":"null_resource.e","implied_provider":"null","module":"","resource":"null_resource.e","resource_key":null,"resource_name":"e","resource_type":"null_resource"}},"type":"apply_start"}
{"@level":"info","@message":"null_resource.e: Creation complete after 2s","@module":"terraform.ui","@timestamp":"","hook":{"action":"create","elapsed_seconds":2,"resource":{"addr":"null_resource.e","implied_provider":"null","module":"","resource":"null_resource.e","resource_key":null,"resource_name":"e","resource_type":"null_resource"}},"type":"apply_complete"}
{"@level":"info","@message":"null_resource.e: Destroying...","@module":"terraform.ui","@timestamp":"","hook":{"action":"delete","resource":{"addr":"null_resource.e","implied_provider":"null","module":"","resource":"null_resource.e","resource_key":null,"resource_name":"e","resource_type":"null_resource"}},"type":"apply_start"}
{"@level":"info","@message":"null_resource.e: Destruction errored after 4s","@module":"terraform.ui","@timestamp":"","hook":{"action":"delete","elapsed_seconds":4,"resource":{"addr":"null_resource.e","implied_provider":"null","module":"","resource":"null_resource.e","resource_key":null,"resource_name":"e","resource_type":"null_resource"}},"type":"apply_errored"}
{"@level":"error","@message":"Error: boom","@module":"terraform.ui","@timestamp":"","diagnostic":{"address":"null_resource.e","detail":"","severity":"error","summary":"boom"},"type":"diagnostic"}

"data.null_resource.f"
{"@level":"info","@message":"data.null_resource.f: Refreshing...","@module":"terraform.ui","@timestamp":"","hook":{"action":"read","resource":{"addr":"data.null_resource.f","implied_provider":"null","module":"","resource":"data.null_resource.f","resource_key":null,"resource_name":"f","resource_type":"null_resource"}},"type":"apply_start"}
{"@level":"info","@message":"data.null_resource.f: Refresh complete after 1s","@module":"terraform.ui","@timestamp":"","hook":{"action":"read","elapsed_seconds":1,"resource":{"addr":"data.null_resource.f","implied_provider":"null","module":"","resource":"data.null_resource.f","resource_key":null,"resource_name":"f","resource_type":"null_resource"}},"type":"apply_complete"}

"null_resource.h"
{"@level":"info","@message":"null_resource.h: Creating...","@module":"terraform.ui","@timestamp":"","hook":{"action":"create","resource":{"addr":"null_resource.h","implied_provider":"null","module":"","resource":"null_resource.h","resource_key":null,"resource_name":"h","resource_type":"null_resource"}},"type":"apply_start"}
{"@level":"info","@message":"null_resource.h: Creation complete after 7s","@module":"terraform.ui","@timestamp":"","hook":{"action":"create","elapsed_seconds":7,"resource":{"addr":"null_resource.h","implied_provider":"null","module":"","resource":"null_resource.h","resource_key":null,"resource_name":"h","resource_type":"null_resource"}},"type":"apply_complete"}
{"@level":"warn","@message":"Warning: slow","@module":"terraform.ui","@timestamp":"","diagnostic":{"address":"null_resource.h","detail":"It took long.","severity":"warning","summary":"slow"},"type":"diagnostic"}

"null_resource.i"
{"@level":"info","@message":"null_resource.i: Creating...","@module":"terraform.ui","@timestamp":"","hook":{"action":"create","resource":{"addr":"null_resource.i","implied_provider":"null","module":"","resource":"null_resource.i","resource_key":null,"resource_name":"i","resource_type":"null_resource"}},"type":"apply_start"}
{"@level":"info","@message":"null_resource.i: Creation errored after 5s","@module":"terraform.ui","@timestamp":"","hook":{"action":"create","elapsed_seconds":5,"resource":{"addr":"null_resource.i","implied_provider":"null","module":"","resource":"null_resource.i","resource_key":null,"resource_name":"i","resource_type":"null_resource"}},"type":"apply_errored"}
{"@level":"error","@message":"Error: no","@module":"terraform.ui","@timestamp":"","diagnostic":{"address":"null_resource.i","detail":"It was refused.","severity":"error","summary":"no"},"type":"diagnostic"}

"null_resource.j"
{"@level":"info","@message":"null_resource.j: Creating...","@module":"terraform.ui","@timestamp":"","hook":{"action":"create","resource":{"addr":"null_resource.j","implied_provider":"null","module":"","resource":"null_resource.j","resource_key":null,"resource_name":"j","resource_type":"null_resource"}},"type":"apply_start"}
{"@level":"info","@message":"null_resource.j: Creation complete after 0s","@module":"terraform.ui","@timestamp":"","hook":{"action":"create","elapsed_seconds":0,"resource":{"addr":"null_resource.j","implied_provider":"null","module":"","resource":"null_resource.j","resource_key":null,"resource_name":"j","resource_type":"null_resource"}},"type":"apply_complete"}

"change_summary"
{"@level":"info","@message":"Apply complete! Resources: 5 added, 1 changed, 2 destroyed.","@module":"terraform.ui","@timestamp":"","changes":{"add":5,"change":1,"operation":"apply","remove":2},"type":"change_summary"}"#;

/// How many lines there are.
const LINE_COUNT: usize = 31;

/// The text before the timestamp of a line.
const AT: &str = r#""@timestamp":""#;

/// Adds a piece to a text.
fn push(rt: &impl Abort, text: &mut String, piece: &str) {
    text.push_str(piece).expect(rt, "memory");
}

/// Adds a line without its timestamp.
fn push_line(rt: &impl Abort, text: &mut String, line: &str) {
    let (front, rest) = parted(rt, line, AT);
    let (_moment, rest) = parted(rt, rest, "\"");
    for piece in [front, AT, "\"", rest, "\n"] {
        push(rt, text, piece);
    }
}

/// Returns the lines of the stream that contain the mark, without their timestamps.
fn lines_with(rt: &impl Abort, alloc: Global, stream: &str, mark: &str) -> &'static str {
    let mut text = String::new(alloc);
    for line in stream.lines() {
        if line.contains(mark) {
            push_line(rt, &mut text, line);
        }
    }
    leaked(rt, alloc, text).as_str()
}

/// Fails if the stream has other lines, or the lines of a change in another order.
fn has_each_line_once(rt: &impl Abort, alloc: Global, stream: &str) {
    for block in LINES.split("\n\n") {
        let (mark, wanted) = parted(rt, block, "\n");
        let actual = lines_with(rt, alloc, stream, mark);
        text_is(rt, mark, actual.trim_end(), wanted);
    }
    holds(rt, "no other line", stream.lines().count() == LINE_COUNT);
    let first = r#"{"@level":"info","@message":"Terraform 1.9.0","#;
    holds(rt, "the version first", stream.starts_with(first));
    let last = "\"type\":\"change_summary\"}\n";
    holds(rt, "the summary last", stream.ends_with(last));
}

/// Fails if a run fails, or its stream or totals differ. Each worker is held before its first step
/// until all eight have come, with the first eight changes that have steps.
fn eight_workers_apply_all<R: Threads + Wait + Sync + Abort>(rt: &R, alloc: Global) {
    let passed = AtomicU64::new(0);
    let gate = Watch::new(&passed, &passed, 0x0501_0101, EACH, 0);
    let (options, sink) = (options(8, 1), memory(alloc));
    let (sink, end) = apply_texts(rt, alloc, TEN_CHANGES, TEN_SPANS, options, sink, &gate);
    word_is(rt, "missed", &gate.missed, 0);
    word_is(rt, "passed", &passed, 0x2601_0101);
    let sink = leaked(rt, alloc, sink);
    let stream = str::from_utf8(sink.bytes()).ok().expect(rt, "a text");
    has_each_line_once(rt, alloc, stream);
    let report = report_of(counts(5, 1, 2, 2, 0), 29, stream.len());
    ends(rt, "eight workers", end, Ok(report));
    number_is(rt, "failed writes", sink.failures(), 0);
}

/// The run is repeated, since the workers' messages come in another order each time.
#[test]
fn eight_workers_with_room_for_one_message_write_each_line_once(rt: HostRuntime) {
    for _ in 0..20 {
        eight_workers_apply_all(&rt, rt.alloc());
    }
}
