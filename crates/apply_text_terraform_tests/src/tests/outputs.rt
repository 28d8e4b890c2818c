//! The line of the outputs.

use super::*;

/// The output of a row: its name, whether it is sensitive, its type and its value.
fn output_of(rt: &impl Abort, alloc: Global, row: &str) -> Output {
    let (name, row) = parted(rt, row, " ");
    let (sensitive, row) = parted(rt, row, " ");
    let (kind, value) = parted(rt, row, " ");
    Output {
        name: text_of(rt, alloc, name),
        sensitive: sensitive == "sensitive",
        kind: text_of(rt, alloc, kind),
        value: text_of(rt, alloc, value),
    }
}

fn outputs_of(rt: &impl Abort, alloc: Global, rows: &str) -> &'static Vec<Output> {
    let mut outputs = Vec::new(alloc);
    for row in rows.lines() {
        outputs
            .push(output_of(rt, alloc, row))
            .ok()
            .expect(rt, "memory");
    }
    leaked(rt, alloc, outputs)
}

const ROWS: &str =
    r##"Odd plain ["object",{"a":"string","é<":["tuple",["bool","dynamic","number"]]}] {"a":"b&c","é<":[true,null,2.5]}
id plain "string" "7"
ids plain ["tuple",["string"]] ["7"]
kept plain "number" 1
secret sensitive "string" "hush""##;

const LINE: &str =
    r##"{"@level":"info","@message":"Outputs: 5","@module":"terraform.ui","@timestamp":"1970-01-01T00:00:00.000000Z","outputs":{"Odd":{"sensitive":false,"type":["object",{"a":"string","é\u003c":["tuple",["bool","dynamic","number"]]}],"value":{"a":"b\u0026c","é\u003c":[true,null,2.5]}},"id":{"sensitive":false,"type":"string","value":"7"},"ids":{"sensitive":false,"type":["tuple",["string"]],"value":["7"]},"kept":{"sensitive":false,"type":"number","value":1},"secret":{"sensitive":true,"type":"string"}},"type":"outputs"}
"##;

/// Fails when the line of the outputs differs.
fn compare_outputs(rt: &impl Abort, alloc: Global, rows: &str, wanted: &str) {
    let outputs = outputs_of(rt, alloc, rows);
    let mut lines = TerraformBuffer::new(alloc);
    let pushed = lines.push_outputs(Start::zero(), 0, outputs.as_slice());
    pushed.ok().expect(rt, "memory");
    compare(rt, rows, lines.as_bytes(), wanted);
}

#[test]
fn outputs_are_written_in_order(rt: HostRuntime) {
    compare_outputs(&rt, rt.alloc(), ROWS, LINE);
}

const QUOTED: &str = r##"a"b plain "number" 0.10000000000000000000001"##;

const QUOTED_LINE: &str =
    r##"{"@level":"info","@message":"Outputs: 1","@module":"terraform.ui","@timestamp":"1970-01-01T00:00:00.000000Z","outputs":{"a\"b":{"sensitive":false,"type":"number","value":0.10000000000000000000001}},"type":"outputs"}
"##;

/// Types and values are copied verbatim, so no number is rounded. Names are JSON strings.
#[test]
fn numbers_of_outputs_are_not_rounded(rt: HostRuntime) {
    compare_outputs(&rt, rt.alloc(), QUOTED, QUOTED_LINE);
}
