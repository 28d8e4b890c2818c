//! The parts of an accepted plan.

use super::plain::reads_as_plainly;
use super::table::{cells, compare, first_line, push, put, rows};
use super::*;
use apply_plan::Change;

/// The texts of a change: its address, module, resource, type, provider and name.
fn texts_of(rt: &impl Abort, alloc: Global, change: &Change) -> &'static str {
    let texts = (
        change.address(),
        change.module(),
        change.resource(),
        change.kind_name(),
        change.provider(),
        change.name(),
    );
    printed(rt, alloc, &texts)
}

/// The other values of a change: its mode, key, deposed key, prior id and steps.
fn values_of(rt: &impl Abort, alloc: Global, change: &Change) -> &'static str {
    let values = (
        change.mode(),
        change.key(),
        change.deposed(),
        change.prior_id(),
        change.steps(),
    );
    printed(rt, alloc, &values)
}

/// Adds all values of a change.
fn push_parts(rt: &impl Abort, alloc: Global, line: &mut String, change: &Change) {
    push(rt, line, texts_of(rt, alloc, change));
    push(rt, line, values_of(rt, alloc, change));
}

/// One line with the number of changes, the version of the plan, and all values of its changes.
fn parts_of(rt: &impl Abort, alloc: Global, plan: &Plan) -> &'static str {
    let mut line = String::new(alloc);
    let top = (plan.len(), plan.version());
    push(rt, &mut line, printed(rt, alloc, &top));
    for number in 0..plan.len() {
        push_parts(rt, alloc, &mut line, plan.change(number));
    }
    leaked_text(rt, alloc, line)
}

/// Reads the plan with the cell of the row in place of `CELL`, and compares its values. The plain
/// reader must read the same.
fn compare_plan(rt: &impl Abort, alloc: Global, result_text: &str, plan: &str, row: &str) {
    let (cell, wanted) = cells(rt, row);
    let text = put(rt, alloc, plan, "CELL", cell);
    reads_as_plainly(rt, alloc, text);
    let actual = parts_of(rt, alloc, plan_of(rt, alloc, text));
    compare(
        rt,
        cell,
        actual,
        put(rt, alloc, result_text, "CELL", wanted),
    );
}

/// Compares each row of a block. A block has values and a plan, both with `CELL`, and cells.
fn compare_plans(rt: &impl Abort, alloc: Global, block: &str) {
    let (result_text, rest) = first_line(rt, block);
    let (plan, table) = first_line(rt, rest);
    for row in rows(rt, table) {
        compare_plan(rt, alloc, result_text, plan, row);
    }
}

/// Blocks of values, a plan, and rows. Each row has the cell for the plan and the cell for the
/// values. An empty line separates blocks.
const PARTS: &str = r#"CELL
{CELL,"terraform_version":"1.9.0","resource_changes":[{"address":"module.a[\"x.y\"].aws_instance.web[\"k\\\"1\"]","module_address":"module.a[\"x.y\"]","mode":"managed","type":"aws_instance","name":"web","index":"k\"1","change":{"actions":["create"]}}]}
"format_version":"1.2" => (1, "1.9.0")("module.a[\"x.y\"].aws_instance.web[\"k\\\"1\"]", "module.a[\"x.y\"]", "aws_instance.web[\"k\\\"1\"]", "aws_instance", "aws", "web")(Managed, Name(Text { inner: "k\"1" }), None, None, [Create])

(1, "0.0.0")("null_resource.a", "", "null_resource.a", "null_resource", "null", "a")(Managed, None, None, None, CELL)
{"format_version":"1.2","resource_changes":[{"address":"null_resource.a","mode":"managed","type":"null_resource","name":"a","change":{"actions":CELL}}]}
["no-op"] => []
["create"] => [Create]
["read"] => [Read]
["update"] => [Update]
["delete"] => [Delete]
["delete","create"] => [Delete, Create]
["create","delete"] => [Create, Delete]
["forget"] => []

(1, "0.0.0")("a.b", "", "a.b", "a", "a", "b")(Managed, None, None, CELL, [Update])
{"format_version":"1.2","resource_changes":[{"address":"a.b","mode":"managed","type":"a","name":"b","change":{CELL,"actions":["update"]}}]}
"before":{"id":"i-1"} => Some("i-1")
"before":{"id":"i-1"},"before_sensitive":{"id":false} => Some("i-1")
"before":{"id":"i-1"},"before_sensitive":{"id":"true"} => Some("i-1")
"before":{"id":"i-1"},"before_sensitive":false => Some("i-1")
"before":{"id":"i-1"},"before_sensitive":[true] => Some("i-1")
"before":{"id":"i-1"},"before_sensitive":{"other":true} => Some("i-1")
"before":{"id":"i-1"},"before_sensitive":{"id":true} => None
"before":{"id":"i-1"},"before_sensitive":true => None
"before":{"id":""} => None
"before":{"id":5} => None
"before":"i-1" => None
"before":null => None
"after":{"id":"i-1"} => None
"before":{"id":"i-1","id":"i-2"} => Some("i-2")
"before":{"id":"i-1","id":5} => None
"before":{"id":"i-1"},"before":{"id":"i-2"} => Some("i-2")
"before":{"id":"i-1"},"before":{"name":"i-2"} => None
"before":{"id":"i-1"},"before":5 => None
"before":{"id":"i-1"},"before_sensitive":true,"before_sensitive":false => Some("i-1")
"before":{"id":"i-1"},"before_sensitive":true,"before_sensitive":null => Some("i-1")
"before":{"id":"i-1"},"before_sensitive":{"id":true,"id":false} => Some("i-1")

(1, "0.0.0")("a.b", "", "a.b", CELL, "b")(DataSource, Number(-1), None, None, [Read])
{"format_version":"1.2","resource_changes":[{"address":"a.b","mode":"data","type":"CELL","name":"b","index":-1,"change":{"actions":["read"]}}]}
random_pet => "random_pet", "random"
terraform => "terraform", "terraform"
terraform_data => "terraform_data", "terraform"
a_b_c => "a_b_c", "a"
_x => "_x", ""

(1, "0.0.0")("a.b", "", "a.b", "a", "a", "b")(Managed, CELL, None, None, [Create])
{"format_version":"1.2","resource_changes":[{"address":"a.b","module_address":"","mode":"managed","type":"a","name":"b","index":CELL,"change":{"actions":["create"]}}]}
null => None
0 => Number(0)
9223372036854775807 => Number(9223372036854775807)
-9223372036854775808 => Number(-9223372036854775808)
"" => Name(Text { inner: "" })
"k" => Name(Text { inner: "k" })

(CELL)
CELL
{"format_version":"1.0"} => 0, "0.0.0"
{"format_version":"1."} => 0, "0.0.0"
{"format_version":"1.2","terraform_version":null,"resource_changes":null} => 0, "0.0.0"
{"format_version":"1.2","terraform_version":"","resource_changes":[]} => 0, ""
{"format_version":"1.2","terraform_version":"1.9.0","errored":true} => 0, "1.9.0"
{"format_version":"2.0","format_version":"1.0","other":{"a":[null,1.5]}} => 0, "0.0.0""#;

#[test]
fn plans_tell_their_parts(rt: HostRuntime) {
    for block in PARTS.split("\n\n") {
        compare_plans(&rt, rt.alloc(), block);
    }
}

/// Two objects with one address. The second is deposed.
const DEPOSED: &str =
    r#"(2, "0.0.0")("a.b", "", "a.b", "a", "a", "b")(Managed, None, None, None, [Delete])("a.b", "", "a.b", "a", "a", "b")(Managed, None, Some("CELL"), None, [Delete])
{"format_version":"1.2","resource_changes":[{"address":"a.b","mode":"managed","type":"a","name":"b","change":{"actions":["delete"]}},{"address":"a.b","deposed":"CELL","mode":"managed","type":"a","name":"b","change":{"actions":["delete"]}}]}
00000001 => 00000001"#;

#[test]
fn deposed_keys_are_kept(rt: HostRuntime) {
    compare_plans(&rt, rt.alloc(), DEPOSED);
}
