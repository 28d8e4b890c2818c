//! The outcomes that a script states for steps.

use super::table::{cells, compare, first_line, rows};
use super::*;

/// The outcome of the step as `Debug` prints it: seconds, ending, provisioners and waits.
///
/// A step without an outcome in the script gives `default`.
pub fn stated(
    rt: &impl Abort,
    alloc: Global,
    script: &Script,
    change: u32,
    step: u8,
) -> &'static str {
    match script.outcome(change, step) {
        Some(outcome) => {
            let stated = (
                outcome.seconds,
                &outcome.result,
                &outcome.provisioners,
                &outcome.after,
            );
            printed(rt, alloc, &stated)
        }
        None => "default",
    }
}

/// The outcome of a step, by the number of its change and its number in the change.
fn stated_at(
    rt: &impl Abort,
    alloc: Global,
    script: &Script,
    change: &str,
    step: &str,
) -> &'static str {
    let change = change.parse::<u32>().ok().expect(rt, change);
    let step = step.parse::<u8>().ok().expect(rt, step);
    stated(rt, alloc, script, change, step)
}

/// Compares the outcome of the step of each row.
fn compare_steps(rt: &impl Abort, alloc: Global, script: &Script, table: &str) {
    for row in rows(rt, table) {
        let (change, rest) = cells(rt, row);
        let (step, wanted) = cells(rt, rest);
        compare(rt, row, stated_at(rt, alloc, script, change, step), wanted);
    }
}

/// Compares a block: a plan, a script, and rows.
fn compare_script(rt: &impl Abort, alloc: Global, block: &str) {
    let (plan, rest) = first_line(rt, block);
    let (script, table) = first_line(rt, rest);
    compare_steps(rt, alloc, script_of(rt, alloc, plan, script), table);
}

/// Blocks of a plan, a script, and outcomes by the numbers of change and step.
///
/// - The first plan has an update, a replacement, a deposed object at the address of the update, a
///   no-op, and a create. Its script has another order and no entry for the third change.
/// - The second script names the deposed object, and the third names nothing.
/// - In the last, an update waits for a replacement that creates first. A text names its last step.
const STATED_OUTCOMES: &str =
    r#"{"format_version":"1.2","resource_changes":[{"address":"a.a","mode":"managed","type":"a","name":"a","change":{"actions":["update"]}},{"address":"a.b","mode":"managed","type":"a","name":"b","change":{"actions":["delete","create"]}},{"address":"a.a","deposed":"00000001","mode":"managed","type":"a","name":"a","change":{"actions":["delete"]}},{"address":"a.c","mode":"managed","type":"a","name":"c","change":{"actions":["no-op"]}},{"address":"a.d","mode":"managed","type":"a","name":"d","change":{"actions":["create"]}}]}
{"changes":[{"address":"a.d","steps":[{"seconds":5,"failed":{"summary":"boom","detail":"why"}}]},{"address":"a.c","steps":[]},{"address":"a.b","deposed":"","steps":[{"seconds":1},{"seconds":86400,"id":"42","warning":{"summary":"slow","detail":"very"}}]},{"address":"a.a","steps":[{"seconds":3,"id":"i-1"}]}]}
0 => 0 => (3, Done { id: Some(Text { inner: "i-1" }), warning: None }, Provisioners { provisioners: [] }, Waits { waits: [] })
0 => 1 => default
1 => 0 => (1, Done { id: None, warning: None }, Provisioners { provisioners: [] }, Waits { waits: [] })
1 => 1 => (86400, Done { id: Some(Text { inner: "42" }), warning: Some(Diag { summary: Text { inner: "slow" }, detail: Text { inner: "very" }, range: None, snippet: None }) }, Provisioners { provisioners: [] }, Waits { waits: [] })
1 => 2 => default
2 => 0 => default
2 => 1 => default
3 => 0 => default
4 => 0 => (5, Failed { diag: Diag { summary: Text { inner: "boom" }, detail: Text { inner: "why" }, range: None, snippet: None } }, Provisioners { provisioners: [] }, Waits { waits: [] })
4 => 1 => default
0 => 255 => default
4 => 255 => default
5 => 0 => default
10000 => 0 => default
4294967295 => 0 => default
4294967295 => 255 => default

{"format_version":"1.2","resource_changes":[{"address":"a.a","mode":"managed","type":"a","name":"a","change":{"actions":["update"]}},{"address":"a.b","mode":"managed","type":"a","name":"b","change":{"actions":["delete","create"]}},{"address":"a.a","deposed":"00000001","mode":"managed","type":"a","name":"a","change":{"actions":["delete"]}},{"address":"a.c","mode":"managed","type":"a","name":"c","change":{"actions":["no-op"]}},{"address":"a.d","mode":"managed","type":"a","name":"d","change":{"actions":["create"]}}]}
{"changes":[{"address":"a.a","deposed":"00000001","steps":[{"seconds":7}]},{"address":"a.b","steps":[{"seconds":8}]}]}
0 => 0 => default
1 => 0 => (8, Done { id: None, warning: None }, Provisioners { provisioners: [] }, Waits { waits: [] })
1 => 1 => default
2 => 0 => (7, Done { id: None, warning: None }, Provisioners { provisioners: [] }, Waits { waits: [] })
4 => 0 => default

{"format_version":"1.2","resource_changes":[{"address":"a.a","mode":"managed","type":"a","name":"a","change":{"actions":["update"]}},{"address":"a.b","mode":"managed","type":"a","name":"b","change":{"actions":["delete","create"]}},{"address":"a.a","deposed":"00000001","mode":"managed","type":"a","name":"a","change":{"actions":["delete"]}},{"address":"a.c","mode":"managed","type":"a","name":"c","change":{"actions":["no-op"]}},{"address":"a.d","mode":"managed","type":"a","name":"d","change":{"actions":["create"]}}]}
{"changes":[]}
0 => 0 => default
1 => 1 => default
4 => 0 => default
5 => 0 => default
4294967295 => 255 => default

{"format_version":"1.2","resource_changes":[{"address":"null_resource.a","mode":"managed","type":"null_resource","name":"a","change":{"actions":["create","delete"]}},{"address":"null_resource.b","mode":"managed","type":"null_resource","name":"b","change":{"actions":["update"]}}]}
{"changes":[{"address":"null_resource.b","steps":[{"seconds":3,"after":[{"address":"null_resource.a","step":0},"null_resource.a"]}]},{"address":"null_resource.a","steps":[{"seconds":1},{"seconds":2,"failed":{"summary":"boom"},"after":null}]}]}
1 => 0 => (3, Done { id: None, warning: None }, Provisioners { provisioners: [] }, Waits { waits: [Wait { change: 0, step: 0 }, Wait { change: 0, step: 1 }] })
0 => 0 => (1, Done { id: None, warning: None }, Provisioners { provisioners: [] }, Waits { waits: [] })
0 => 1 => (2, Failed { diag: Diag { summary: Text { inner: "boom" }, detail: Text { inner: "" }, range: None, snippet: None } }, Provisioners { provisioners: [] }, Waits { waits: [] })"#;

#[test]
fn a_script_says_what_is_written(rt: HostRuntime) {
    for block in STATED_OUTCOMES.split("\n\n") {
        compare_script(&rt, rt.alloc(), block);
    }
}

/// The results for the empty script.
const NOTHING: &str = r#"
0 => 0 => default
1 => 1 => default
4 => 0 => default
5 => 0 => default
4294967295 => 255 => default
"#;

#[test]
fn an_empty_script_says_nothing(rt: HostRuntime) {
    let alloc = rt.alloc();
    let empty = leaked(&rt, alloc, Script::empty());
    compare_steps(&rt, alloc, empty, NOTHING);
    holds(&rt, "no waits", !empty.has_waits());
}
