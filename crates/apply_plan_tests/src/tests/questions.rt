//! Outcomes of the steps of the first change, and entries with a step that can never start.

use super::outcomes::stated;
use super::provisioning::comes;
use super::table::{cells, compare, first_line, put, rows};
use super::*;
use apply_plan::never_beginning;

/// Blocks of a question, a result, a plan, a script, and rows. An empty line separates blocks.
///
/// Each row has the cells in place of `CELL` in the script and in the result. The questions are:
/// - `said`: the outcome of the first step in the script.
/// - `comes`: how the first step ends.
/// - `steps`: the outcomes of a replacement.
/// - `waits`: whether any step waits for another.
/// - `never`: all entries with a step that can never start. In its script `t.b` and `t.d` wait for
///   each other, `t.a` for `t.b`, and `t.c` for itself. `t.e` waits for nothing.
const QUESTIONS: &str = r#"said
(CELL, Provisioners { provisioners: [] }, Waits { waits: [] })
{"format_version":"1.2","resource_changes":[{"address":"null_resource.a","mode":"managed","type":"null_resource","name":"a","change":{"actions":["delete"]}}]}
{"changes":[{"address":"null_resource.a","steps":[{CELL}],"id":"9","seconds":9}]}
"seconds":0 => 0, Done { id: None, warning: None }
"seconds":86400 => 86400, Done { id: None, warning: None }
"seconds":1,"seconds":2 => 2, Done { id: None, warning: None }
"seconds":0,"id":"7" => 0, Done { id: Some(Text { inner: "7" }), warning: None }
"seconds":0,"id":" " => 0, Done { id: Some(Text { inner: " " }), warning: None }
"seconds":0,"id":"7","id":"8" => 0, Done { id: Some(Text { inner: "8" }), warning: None }
"seconds":0,"id":"" => 0, Done { id: None, warning: None }
"seconds":0,"id":null => 0, Done { id: None, warning: None }
"seconds":0,"id":"7","id":"" => 0, Done { id: None, warning: None }
"seconds":0,"id":"7","id":null => 0, Done { id: None, warning: None }
"seconds":0,"warning":{"summary":"slow"} => 0, Done { id: None, warning: Some(Diag { summary: Text { inner: "slow" }, detail: Text { inner: "" }, range: None, snippet: None }) }
"seconds":0,"warning":{"detail":"very","summary":"slow"} => 0, Done { id: None, warning: Some(Diag { summary: Text { inner: "slow" }, detail: Text { inner: "very" }, range: None, snippet: None }) }
"seconds":0,"warning":{"summary":""} => 0, Done { id: None, warning: Some(Diag { summary: Text { inner: "" }, detail: Text { inner: "" }, range: None, snippet: None }) }
"seconds":0,"warning":{"summary":"","detail":"very"} => 0, Done { id: None, warning: Some(Diag { summary: Text { inner: "" }, detail: Text { inner: "very" }, range: None, snippet: None }) }
"seconds":0,"warning":{"summary":"slow","detail":""} => 0, Done { id: None, warning: Some(Diag { summary: Text { inner: "slow" }, detail: Text { inner: "" }, range: None, snippet: None }) }
"seconds":0,"warning":{"summary":"slow","detail":null} => 0, Done { id: None, warning: Some(Diag { summary: Text { inner: "slow" }, detail: Text { inner: "" }, range: None, snippet: None }) }
"seconds":0,"warning":null => 0, Done { id: None, warning: None }
"seconds":0,"id":"","warning":{"summary":"slow"} => 0, Done { id: None, warning: Some(Diag { summary: Text { inner: "slow" }, detail: Text { inner: "" }, range: None, snippet: None }) }
"seconds":0,"warning":{"summary":"slow","severity":5} => 0, Done { id: None, warning: Some(Diag { summary: Text { inner: "slow" }, detail: Text { inner: "" }, range: None, snippet: None }) }
"seconds":0,"warning":{"summary":"slow","severity":"error"} => 0, Done { id: None, warning: Some(Diag { summary: Text { inner: "slow" }, detail: Text { inner: "" }, range: None, snippet: None }) }
"seconds":0,"failed":null,"id":"7" => 0, Done { id: Some(Text { inner: "7" }), warning: None }
"seconds":4,"failed":{"summary":"boom"} => 4, Failed { diag: Diag { summary: Text { inner: "boom" }, detail: Text { inner: "" }, range: None, snippet: None } }
"seconds":4,"failed":{"detail":"why","summary":"boom"} => 4, Failed { diag: Diag { summary: Text { inner: "boom" }, detail: Text { inner: "why" }, range: None, snippet: None } }
"seconds":4,"failed":{"summary":""} => 4, Failed { diag: Diag { summary: Text { inner: "" }, detail: Text { inner: "" }, range: None, snippet: None } }
"seconds":4,"failed":{"summary":"one","summary":"two","detail":null} => 4, Failed { diag: Diag { summary: Text { inner: "two" }, detail: Text { inner: "" }, range: None, snippet: None } }
"seconds":4,"failed":{"summary":"boom"},"id":"","warning":null => 4, Failed { diag: Diag { summary: Text { inner: "boom" }, detail: Text { inner: "" }, range: None, snippet: None } }
"seconds":4,"failed":{"summary":"boom"},"failed":null => 4, Done { id: None, warning: None }
"seconds":4,"provider":{"failed":true},"failure":{"summary":"boom"} => 4, Done { id: None, warning: None }
"seconds":0,"id":"\u00e9\n" => 0, Done { id: Some(Text { inner: "é\n" }), warning: None }

said
(CELL, Waits { waits: [] })
{"format_version":"1.2","terraform_version":"1.9.0","resource_changes":[{"address":"null_resource.a","mode":"managed","type":"null_resource","name":"a","change":{"actions":["create"]}}]}
{"changes":[{"address":"null_resource.a","steps":[{CELL}]}]}
"seconds":1 => 1, Done { id: None, warning: None }, Provisioners { provisioners: [] }
"seconds":1,"provisioners":null => 1, Done { id: None, warning: None }, Provisioners { provisioners: [] }
"seconds":1,"provisioners":[] => 1, Done { id: None, warning: None }, Provisioners { provisioners: [] }
"seconds":4,"id":"7","provisioners":[{"provisioner":"local-exec","seconds":12,"output":["hi"]}] => 4, Done { id: Some(Text { inner: "7" }), warning: None }, Provisioners { provisioners: [Provisioner { name: Text { inner: "local-exec" }, seconds: 12, output: TimedTexts { texts: [TimedText { after: 12, text: Text { inner: "hi" } }] }, failed: None, may_fail: false }] }
"seconds":0,"provisioners":[{"provisioner":"a","seconds":2,"output":null,"failed":{"summary":"boom"}},{"provisioner":"b","seconds":3,"output":["","x\ny","\u00e9\"\\"]}] => 0, Done { id: None, warning: None }, Provisioners { provisioners: [Provisioner { name: Text { inner: "a" }, seconds: 2, output: TimedTexts { texts: [] }, failed: Some(Diag { summary: Text { inner: "boom" }, detail: Text { inner: "" }, range: None, snippet: None }), may_fail: false }, Provisioner { name: Text { inner: "b" }, seconds: 3, output: TimedTexts { texts: [TimedText { after: 3, text: Text { inner: "" } }, TimedText { after: 3, text: Text { inner: "x\ny" } }, TimedText { after: 3, text: Text { inner: "é\"\\" } }] }, failed: None, may_fail: false }] }
"seconds":0,"provisioners":[{"provisioner":"a","seconds":86400,"output":[],"failed":{"summary":"","detail":"why"}}] => 0, Done { id: None, warning: None }, Provisioners { provisioners: [Provisioner { name: Text { inner: "a" }, seconds: 86400, output: TimedTexts { texts: [] }, failed: Some(Diag { summary: Text { inner: "" }, detail: Text { inner: "why" }, range: None, snippet: None }), may_fail: false }] }
"seconds":0,"provisioners":[{"provisioner":"a","provisioner":"b","seconds":1,"seconds":2,"output":["x"],"output":["y"]}] => 0, Done { id: None, warning: None }, Provisioners { provisioners: [Provisioner { name: Text { inner: "b" }, seconds: 2, output: TimedTexts { texts: [TimedText { after: 2, text: Text { inner: "y" } }] }, failed: None, may_fail: false }] }
"seconds":0,"provisioners":[{"provisioner":"a","seconds":7,"output":[{"after":0,"text":"x"},{"text":"","after":3},{"after":3,"text":"\u00e9"},"y",{"text":"z"},{"text":"","after":null}]}] => 0, Done { id: None, warning: None }, Provisioners { provisioners: [Provisioner { name: Text { inner: "a" }, seconds: 7, output: TimedTexts { texts: [TimedText { after: 0, text: Text { inner: "x" } }, TimedText { after: 3, text: Text { inner: "" } }, TimedText { after: 3, text: Text { inner: "é" } }, TimedText { after: 7, text: Text { inner: "y" } }, TimedText { after: 7, text: Text { inner: "z" } }, TimedText { after: 7, text: Text { inner: "" } }] }, failed: None, may_fail: false }] }
"seconds":0,"provisioners":[{"provisioner":"a","seconds":86400,"output":[{"after":86399,"text":"x"},{"after":86400,"text":"y"}]}] => 0, Done { id: None, warning: None }, Provisioners { provisioners: [Provisioner { name: Text { inner: "a" }, seconds: 86400, output: TimedTexts { texts: [TimedText { after: 86399, text: Text { inner: "x" } }, TimedText { after: 86400, text: Text { inner: "y" } }] }, failed: None, may_fail: false }] }
"seconds":0,"provisioners":[{"provisioner":"a","seconds":1,"output":["x"],"output":null,"failed":{"summary":"boom"},"failed":null}] => 0, Done { id: None, warning: None }, Provisioners { provisioners: [Provisioner { name: Text { inner: "a" }, seconds: 1, output: TimedTexts { texts: [] }, failed: None, may_fail: false }] }
"seconds":0,"provisioners":[{"provisioner":"a","seconds":1,"on_failure":"continue","failed":{"summary":"boom"}},{"provisioner":"b","seconds":2,"on_failure":"fail"}] => 0, Done { id: None, warning: None }, Provisioners { provisioners: [Provisioner { name: Text { inner: "a" }, seconds: 1, output: TimedTexts { texts: [] }, failed: Some(Diag { summary: Text { inner: "boom" }, detail: Text { inner: "" }, range: None, snippet: None }), may_fail: true }, Provisioner { name: Text { inner: "b" }, seconds: 2, output: TimedTexts { texts: [] }, failed: None, may_fail: false }] }
"seconds":0,"provisioners":[{"provisioner":"a","seconds":1,"on_failure":"continue","on_failure":null}] => 0, Done { id: None, warning: None }, Provisioners { provisioners: [Provisioner { name: Text { inner: "a" }, seconds: 1, output: TimedTexts { texts: [] }, failed: None, may_fail: false }] }
"seconds":0,"provisioners":[{"provisioner":"a","seconds":1,"failed":{"summary":"boom","severity":"warning"}}] => 0, Done { id: None, warning: None }, Provisioners { provisioners: [Provisioner { name: Text { inner: "a" }, seconds: 1, output: TimedTexts { texts: [] }, failed: Some(Diag { summary: Text { inner: "boom" }, detail: Text { inner: "" }, range: None, snippet: None }), may_fail: false }] }

said
(CELL, Provisioners { provisioners: [] }, Waits { waits: [] })
{"format_version":"1.2","resource_changes":[{"address":"data.http.a","mode":"data","type":"http","name":"a","change":{"actions":["read"]}}]}
{"changes":[{"address":"data.http.a","steps":[{CELL}]}]}
"seconds":3,"failed":{"summary":"boom"} => 3, Failed { diag: Diag { summary: Text { inner: "boom" }, detail: Text { inner: "" }, range: None, snippet: None } }
"seconds":3,"failed":{"summary":"boom","severity":null} => 3, Failed { diag: Diag { summary: Text { inner: "boom" }, detail: Text { inner: "" }, range: None, snippet: None } }
"seconds":3,"failed":{"summary":"boom","detail":"why","severity":"error"} => 3, Failed { diag: Diag { summary: Text { inner: "boom" }, detail: Text { inner: "why" }, range: None, snippet: None } }
"seconds":3,"failed":{"summary":"boom","severity":"warning"} => 3, Warned { diag: Diag { summary: Text { inner: "boom" }, detail: Text { inner: "" }, range: None, snippet: None } }
"seconds":3,"failed":{"severity":"warning","detail":"why","summary":"boom"} => 3, Warned { diag: Diag { summary: Text { inner: "boom" }, detail: Text { inner: "why" }, range: None, snippet: None } }
"seconds":3,"failed":{"summary":"boom","severity":"error","severity":"warning"} => 3, Warned { diag: Diag { summary: Text { inner: "boom" }, detail: Text { inner: "" }, range: None, snippet: None } }
"seconds":3,"failed":{"summary":"boom","severity":"warning"},"failed":{"summary":"boom"} => 3, Failed { diag: Diag { summary: Text { inner: "boom" }, detail: Text { inner: "" }, range: None, snippet: None } }
"seconds":3,"failed":{"summary":"boom","severity":"warning"},"failed":null => 3, Done { id: None, warning: None }
"seconds":3,"failed":{"summary":"boom","severity":"warning"},"id":"","warning":null,"provisioners":[] => 3, Warned { diag: Diag { summary: Text { inner: "boom" }, detail: Text { inner: "" }, range: None, snippet: None } }

comes
(CELL)
{"format_version":"1.2","terraform_version":"1.9.0","resource_changes":[{"address":"null_resource.a","mode":"managed","type":"null_resource","name":"a","change":{"actions":["create"]}}]}
{"changes":[{"address":"null_resource.a","steps":[{CELL}]}]}
"seconds":1 => 1, 0, None, false
"seconds":4,"failed":{"summary":"boom","detail":"why"} => 4, 0, Some(Diag { summary: Text { inner: "boom" }, detail: Text { inner: "why" }, range: None, snippet: None }), true
"seconds":4,"provisioners":[{"provisioner":"a","seconds":12}] => 16, 1, None, false
"seconds":4,"provisioners":[{"provisioner":"a","seconds":0},{"provisioner":"b","seconds":7}] => 11, 2, None, false
"seconds":1,"provisioners":[{"provisioner":"a","seconds":2,"failed":{"summary":"boom"}},{"provisioner":"b","seconds":3}] => 3, 1, Some(Diag { summary: Text { inner: "boom" }, detail: Text { inner: "" }, range: None, snippet: None }), true
"seconds":1,"provisioners":[{"provisioner":"a","seconds":2},{"provisioner":"b","seconds":3,"failed":{"summary":"","detail":"why"}}] => 6, 2, Some(Diag { summary: Text { inner: "" }, detail: Text { inner: "why" }, range: None, snippet: None }), true
"seconds":1,"provisioners":[{"provisioner":"a","seconds":2,"failed":{"summary":"first"}},{"provisioner":"b","seconds":3,"failed":{"summary":"second"}}] => 3, 1, Some(Diag { summary: Text { inner: "first" }, detail: Text { inner: "" }, range: None, snippet: None }), true
"seconds":1,"warning":{"summary":"slow"},"provisioners":[{"provisioner":"a","seconds":2},{"provisioner":"b","seconds":4,"failed":{"summary":"boom"}},{"provisioner":"c","seconds":8}] => 7, 2, Some(Diag { summary: Text { inner: "boom" }, detail: Text { inner: "" }, range: None, snippet: None }), true
"seconds":86400,"provisioners":[{"provisioner":"a","seconds":0}] => 86400, 1, None, false
"seconds":1,"provisioners":[{"provisioner":"a","seconds":2,"on_failure":"continue","failed":{"summary":"boom"}},{"provisioner":"b","seconds":3}] => 6, 2, None, false
"seconds":1,"provisioners":[{"provisioner":"a","seconds":2,"on_failure":"continue","failed":{"summary":"first"}},{"provisioner":"b","seconds":3,"on_failure":"fail","failed":{"summary":"second"}},{"provisioner":"c","seconds":4}] => 6, 2, Some(Diag { summary: Text { inner: "second" }, detail: Text { inner: "" }, range: None, snippet: None }), true

steps
(CELL)
{"format_version":"1.2","resource_changes":[{"address":"null_resource.a","mode":"managed","type":"null_resource","name":"a","change":{"actions":["delete","create"]}},{"address":"null_resource.b","mode":"managed","type":"null_resource","name":"b","change":{"actions":["create"]}}]}
{"changes":[{"address":"null_resource.a","steps":[CELL]}]}
{"skipped":true} => None, None, Some(0), false
{"skipped":true},{"skipped":true} => None, None, Some(0), false
{"seconds":3},{"skipped":true} => Some(Outcome { seconds: 3, provisioners: Provisioners { provisioners: [] }, result: Done { id: None, warning: None }, after: Waits { waits: [] } }), None, Some(1), false
{"skipped":true},{"seconds":4,"id":"7"} => None, Some(Outcome { seconds: 4, provisioners: Provisioners { provisioners: [] }, result: Done { id: Some(Text { inner: "7" }), warning: None }, after: Waits { waits: [] } }), Some(0), false
{"skipped":false,"seconds":3} => Some(Outcome { seconds: 3, provisioners: Provisioners { provisioners: [] }, result: Done { id: None, warning: None }, after: Waits { waits: [] } }), None, None, false
 => None, None, None, false
{"skipped":true,"after":["null_resource.b"]} => None, None, Some(0), false
{"seconds":3},{"skipped":true,"after":["null_resource.b"]} => Some(Outcome { seconds: 3, provisioners: Provisioners { provisioners: [] }, result: Done { id: None, warning: None }, after: Waits { waits: [] } }), None, Some(1), false
{"skipped":true},{"seconds":4,"after":["null_resource.b"]} => None, Some(Outcome { seconds: 4, provisioners: Provisioners { provisioners: [] }, result: Done { id: None, warning: None }, after: Waits { waits: [Wait { change: 1, step: 0 }] } }), Some(0), true

waits
CELL
{"format_version":"1.2","resource_changes":[{"address":"null_resource.a","mode":"managed","type":"null_resource","name":"a","change":{"actions":["create"]}},{"address":"null_resource.b","mode":"managed","type":"null_resource","name":"b","change":{"actions":["delete","create"]}},{"address":"null_resource.n","mode":"managed","type":"null_resource","name":"n","change":{"actions":["no-op"]}}]}
{"changes":[CELL]}
{"address":"null_resource.a","steps":[{"seconds":0}]} => no
{"address":"null_resource.a","steps":[]},{"address":"null_resource.b","steps":[{"seconds":0,"after":[]}]} => no
{"address":"null_resource.a","steps":[{"seconds":0,"after":["null_resource.n"]}]} => no
{"address":"null_resource.a","steps":[{"seconds":0,"after":["null_resource.b"]}]} => yes
{"address":"null_resource.b","steps":[{"seconds":0},{"seconds":0,"failed":{"summary":"boom"},"after":["null_resource.a"]}]} => yes

never
CELL
{"format_version":"1.2","resource_changes":[{"address":"t.a","mode":"managed","type":"t","name":"a","change":{"actions":["create"]}},{"address":"t.b","mode":"managed","type":"t","name":"b","change":{"actions":["create"]}},{"address":"t.c","mode":"managed","type":"t","name":"c","change":{"actions":["create"]}},{"address":"t.d","mode":"managed","type":"t","name":"d","change":{"actions":["create"]}},{"address":"t.e","mode":"managed","type":"t","name":"e","change":{"actions":["create"]}}]}
CELL
{"changes":[{"address":"t.a","steps":[{"seconds":1,"after":["t.b"]}]},{"address":"t.e","steps":[{"seconds":1}]},{"address":"t.b","steps":[{"seconds":1,"after":["t.e","t.d"]}]},{"address":"t.c","steps":[{"skipped":true,"after":["t.c"]}]},{"address":"t.d","steps":[{"seconds":1,"after":["t.b"]}]}]} => Ok([0, 2, 3, 4])
{"changes":[]} => Ok([])
[] => Err(the script is malformed)"#;

/// The result for a question to a script.
fn result_text(rt: &impl Abort, alloc: Global, what: &str, script: &Script) -> &'static str {
    match what {
        "said" => stated(rt, alloc, script, 0, 0),
        "comes" => comes(rt, alloc, script),
        "steps" => skipped::stated(rt, alloc, script),
        _ => yes_or_no(script.has_waits()),
    }
}

/// The word for a boolean.
fn yes_or_no(is_so: bool) -> &'static str {
    if is_so { "yes" } else { "no" }
}

/// The numbers of the entries with a step that can never start, or the message of the error.
fn never(rt: &impl Abort, alloc: Global, plan: &Plan, text: &str) -> &'static str {
    let numbers = never_beginning(alloc, text.as_bytes(), plan);
    printed(rt, alloc, leaked(rt, alloc, numbers))
}

/// The result for a question to the text of a script.
fn answer(rt: &impl Abort, alloc: Global, what: &str, plan: &str, text: &str) -> &'static str {
    match what {
        "never" => never(rt, alloc, plan_of(rt, alloc, plan), text),
        _ => result_text(rt, alloc, what, script_of(rt, alloc, plan, text)),
    }
}

/// Fails if a script of the block gives another result.
fn compare_block(rt: &impl Abort, alloc: Global, block: &str) {
    let (what, rest) = first_line(rt, block);
    let (result_text, rest) = first_line(rt, rest);
    let (plan, rest) = first_line(rt, rest);
    let (script, table) = first_line(rt, rest);
    for row in rows(rt, table) {
        let (cell, wanted) = cells(rt, row);
        let text = put(rt, alloc, script, "CELL", cell);
        let actual = answer(rt, alloc, what, plan, text);
        compare(rt, row, actual, put(rt, alloc, result_text, "CELL", wanted));
    }
}

/// Fails if a script of one of the blocks gives another result.
pub fn compare_blocks(rt: &impl Abort, alloc: Global, blocks: &str) {
    for block in blocks.split("\n\n") {
        compare_block(rt, alloc, block);
    }
}

#[test]
fn steps_are_told_of(rt: HostRuntime) {
    compare_blocks(&rt, rt.alloc(), QUESTIONS);
}
