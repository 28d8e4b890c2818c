//! Accepted plans, and the errors of other plans.
//!
//! Each member is absent, `null`, empty, of each wrong type, and of valid and invalid values. Of
//! two faults the first is reported. Ignored members must be JSON too.

use super::table::{listed, plans_are_answered, put};
use super::*;

/// Blocks of a plan with `CELL`, a line with a colon, and rows of a cell and the result.
///
/// An empty line separates blocks. `NUMBERS` stands for 10,000 numbers: anything after one more
/// element is left out.
const PLANS: &str = r#"CELL
:
[] => the plan is not a plan of format 1.x
null => the plan is not a plan of format 1.x
1 => the plan is not a plan of format 1.x
"1.0" => the plan is not a plan of format 1.x
{} => the plan is not a plan of format 1.x
{"format_version":null} => the plan is not a plan of format 1.x
{"format_version":1} => the plan is not a plan of format 1.x
{"format_version":""} => the plan is not a plan of format 1.x
{"format_version":"1"} => the plan is not a plan of format 1.x
{"format_version":"2.0"} => the plan is not a plan of format 1.x
{"format_version":"11.0"} => the plan is not a plan of format 1.x
{"format_version":"1.0","terraform_version":5} => the plan is not a plan of format 1.x
{"format_version":"1.0","resource_changes":{}} => the plan is not a plan of format 1.x
{"format_version":"1.0","resource_changes":"x"} => the plan is not a plan of format 1.x
{"format_version":true} => the plan is not a plan of format 1.x
{"format_version":["1.0"]} => the plan is not a plan of format 1.x
{"format_version":{}} => the plan is not a plan of format 1.x
{"format_version":"1.0","terraform_version":true} => the plan is not a plan of format 1.x
{"format_version":"1.0","terraform_version":[]} => the plan is not a plan of format 1.x
{"format_version":"1.0","terraform_version":{}} => the plan is not a plan of format 1.x
{"format_version":"1.0","resource_changes":5} => the plan is not a plan of format 1.x
{"format_version":"1.0","resource_changes":true} => the plan is not a plan of format 1.x
{"format_version":"1.0","format_version":"2.0"} => the plan is not a plan of format 1.x

{"format_version":"1.2","terraform_version":"1.9.0","resource_changes":[{"mode":"managed","type":"t","name":"n","change":{"actions":["create"]},"address":CELL}]}
{"format_version":"1.2","terraform_version":"1.9.0","resource_changes":[{"address":"t.n","type":"t","name":"n","change":{"actions":["create"]},"mode":CELL}]}
{"format_version":"1.2","terraform_version":"1.9.0","resource_changes":[{"address":"t.n","mode":"managed","name":"n","change":{"actions":["create"]},"type":CELL}]}
{"format_version":"1.2","terraform_version":"1.9.0","resource_changes":[{"address":"t.n","mode":"managed","type":"t","change":{"actions":["create"]},"name":CELL}]}
{"format_version":"1.2","terraform_version":"1.9.0","resource_changes":[{"address":"t.n","mode":"managed","type":"t","name":"n","change":CELL}]}
:
null => change 0 is malformed
5 => change 0 is malformed
true => change 0 is malformed
[] => change 0 is malformed
{} => change 0 is malformed

{"format_version":"1.2","terraform_version":"1.9.0","resource_changes":[{"mode":"managed","type":"t","name":"n","change":{"actions":["create"]},CELL}]}
{"format_version":"1.2","terraform_version":"1.9.0","resource_changes":[{"address":"t.n","type":"t","name":"n","change":{"actions":["create"]},CELL}]}
{"format_version":"1.2","terraform_version":"1.9.0","resource_changes":[{"address":"t.n","mode":"managed","name":"n","change":{"actions":["create"]},CELL}]}
{"format_version":"1.2","terraform_version":"1.9.0","resource_changes":[{"address":"t.n","mode":"managed","type":"t","change":{"actions":["create"]},CELL}]}
{"format_version":"1.2","terraform_version":"1.9.0","resource_changes":[{"address":"t.n","mode":"managed","type":"t","name":"n",CELL}]}
:
"other":0 => change 0 is malformed

{"format_version":"1.2","terraform_version":"1.9.0","resource_changes":[{"address":"t.n","mode":"managed","type":"t","name":"n","change":{"actions":["create"]},"module_address":CELL}]}
{"format_version":"1.2","terraform_version":"1.9.0","resource_changes":[{"address":"t.n","mode":"managed","type":"t","name":"n","change":{"actions":["create"]},"index":CELL}]}
{"format_version":"1.2","terraform_version":"1.9.0","resource_changes":[{"address":"t.n","mode":"managed","type":"t","name":"n","change":{"actions":["create"]},"deposed":CELL}]}
:
true => change 0 is malformed
[] => change 0 is malformed
{} => change 0 is malformed
1.5 => change 0 is malformed
null => accepted
"" => accepted

{"format_version":"1.2","terraform_version":"1.9.0","resource_changes":[{"address":"t.n","mode":"managed","type":"t","name":"n","change":{"actions":["create"]},CELL}]}
{"format_version":"1.2","terraform_version":"1.9.0","resource_changes":[{"address":"t.n","mode":"managed","type":"t","name":"n","change":{"actions":["create"]},CELL}]}
{"format_version":"1.2","terraform_version":"1.9.0","resource_changes":[{"address":"t.n","mode":"managed","type":"t","name":"n","change":{"actions":["create"]},CELL}]}
:
"other":0 => accepted

{"format_version":"1.2","terraform_version":"1.9.0","resource_changes":[{"mode":"managed","type":"t","name":"n","change":{"actions":["create"]},"address":CELL}]}
:
"" => change 0 has an address that does not fit its module

{"format_version":"1.2","terraform_version":"1.9.0","resource_changes":[{"address":"t.n","type":"t","name":"n","change":{"actions":["create"]},"mode":CELL}]}
:
"" => change 0 is malformed
"Managed" => change 0 is malformed
"ephemeral" => change 0 is malformed
"data" => accepted

{"format_version":"1.2","terraform_version":"1.9.0","resource_changes":[{"address":"t.n","mode":"managed","name":"n","change":{"actions":["create"]},"type":CELL}]}
:
"" => change 0 is malformed
"_" => accepted

{"format_version":"1.2","terraform_version":"1.9.0","resource_changes":[{"address":"t.n","mode":"managed","type":"t","change":{"actions":["create"]},"name":CELL}]}
:
"" => change 0 is malformed
5,"name":"n" => accepted
"n","name":5 => change 0 is malformed

{"format_version":"1.2","terraform_version":"1.9.0","resource_changes":[{"address":"t.n","mode":"managed","type":"t","name":"n","change":CELL}]}
:
"create" => change 0 is malformed
{"actions":null} => change 0 is malformed
{"actions":"create"} => change 0 is malformed
{"actions":{}} => change 0 is malformed
{"actions":5} => change 0 is malformed
{"actions":true} => change 0 is malformed

{"format_version":"1.2","terraform_version":"1.9.0","resource_changes":[{"address":"t.n","mode":"managed","type":"t","name":"n","change":{"actions":["create"]},"module_address":CELL}]}
:
5 => change 0 is malformed
"module.b" => change 0 has an address that does not fit its module
"t" => accepted
"t.n" => change 0 has an address that does not fit its module
"t." => change 0 has an address that does not fit its module

{"format_version":"1.2","terraform_version":"1.9.0","resource_changes":[{"address":"t.n","mode":"managed","type":"t","name":"n","change":{"actions":["create"]},"deposed":CELL}]}
:
5 => change 0 is malformed
"00000001" => accepted
5,"deposed":null => accepted

{"format_version":"1.2","terraform_version":"1.9.0","resource_changes":[{"address":"t.n","mode":"managed","type":"t","name":"n","change":{"actions":["create"]},"index":CELL}]}
:
0 => accepted
-1 => accepted
9223372036854775807 => accepted
-9223372036854775808 => accepted
"k" => accepted
9223372036854775808 => change 0 is malformed
-9223372036854775809 => change 0 is malformed
1.5 => change 0 is malformed
1.0 => change 0 is malformed
1e2 => change 0 is malformed
-0 => change 0 is malformed

{"format_version":"1.2","terraform_version":"1.9.0","resource_changes":[{"address":"t.n","mode":"managed","type":"t","name":"n","change":CELL}]}
:
{"actions":["remove"]} => change 0 has an action list that is out of scope
{"actions":[]} => change 0 has an action list that is out of scope
{"actions":["create","create"]} => change 0 has an action list that is out of scope
{"actions":[1]} => change 0 has an action list that is out of scope
{"actions":[null]} => change 0 has an action list that is out of scope
{"actions":["Create"]} => change 0 has an action list that is out of scope
{"actions":[""]} => change 0 has an action list that is out of scope
{"actions":["no-op","create"]} => change 0 has an action list that is out of scope
{"actions":["delete","create","delete"]} => change 0 has an action list that is out of scope
{"actions":["create","forget"]} => change 0 has an action list that is out of scope
{"actions":["forget","forget"]} => change 0 has an action list that is out of scope
{"actions":[["create"]]} => change 0 has an action list that is out of scope

{"format_version":"1.2","terraform_version":"1.9.0","resource_changes":[CELL]}
:
5 => change 0 is malformed
null => change 0 is malformed
"x" => change 0 is malformed
[] => change 0 is malformed
true => change 0 is malformed

{"format_version":"1.2","resource_changes":[{"address":"module.m.t.n","module_address":"module.m","mode":"data","type":"t","name":"n","index":5,"deposed":"d","change":{"actions":["delete","create"],"before":{"id":"i"},"before_sensitive":{"id":false}}},CELL]}
:
5 => change 1 is malformed
{} => change 1 is malformed
{"mode":"managed","type":"t","name":"o","change":{"actions":["create"]}} => change 1 is malformed
{"address":"t.o","type":"t","name":"o","change":{"actions":["create"]}} => change 1 is malformed
{"address":"t.o","mode":"managed","name":"o","change":{"actions":["create"]}} => change 1 is malformed
{"address":"t.o","mode":"managed","type":"t","change":{"actions":["create"]}} => change 1 is malformed
{"address":"t.o","mode":"managed","type":"t","name":"o"} => change 1 is malformed
{"address":"t.o","mode":"managed","type":"t","name":"o","change":{"before":{"id":"j"}}} => change 1 is malformed
{"address":"t.o","mode":"managed","type":"t","name":"o","change":{"actions":[]}} => change 1 has an action list that is out of scope
{"address":"t.o","mode":"managed","type":"t","name":"o","change":{"actions":["create"]}} => accepted
{"address":"module.m.t.n","mode":"managed","type":"t","name":"n","change":{"actions":["create"]}} => accepted
{"address":"t.o","mode":"managed","type":"t","name":"o","change":{"actions":["update"],"before":{"id":"j"},"before_sensitive":true}},{"address":"t.p","mode":"managed","type":"t","name":"p","change":{"actions":["update"],"before":{"id":"k"}}} => accepted

{"format_version":"1.2","terraform_version":"1.9.0","resource_changes":[CELL]}
:
{"address":"a.a","mode":"managed","type":"a","name":"a","change":{"actions":["create"]}},{"address":"a.b","module_address":"module.c","mode":"managed","type":"a","name":"b","change":{"actions":["create"]}},{"address":"a.b","mode":"x","type":"a","name":"b","change":{"actions":["remove"]}} => change 1 has an address that does not fit its module
{"address":"a.a","mode":"managed","type":"a","name":"a","change":{"actions":["create"]}},{"address":"a.b","mode":"x","type":"a","name":"b","change":{"actions":["remove"]}},{"address":"a.b","module_address":"module.c","mode":"managed","type":"a","name":"b","change":{"actions":["create"]}} => change 1 is malformed
{"address":"a.a","mode":"managed","type":"a","name":"a","change":{"actions":["create"]}},{"address":"a.b","module_address":"module.c","mode":"managed","type":"a","name":"b","change":{"actions":["remove"]}},{"address":"a.b","mode":"x","type":"a","name":"b","change":{"actions":["remove"]}} => change 1 has an action list that is out of scope
{"address":"a.a","mode":"managed","type":"a","name":"a","change":{"actions":["create"]}},{"address":"a.a","mode":"managed","type":"a","name":"a","change":{"actions":["create"]}},{"address":"a.b","mode":"x","type":"a","name":"b","change":{"actions":["remove"]}} => change 1 repeats an earlier change
{"address":"a.a","mode":"managed","type":"a","name":"a","change":{"actions":["create"]}},{"address":"a.b","mode":"x","type":"a","name":"b","change":{"actions":["remove"]}},{"address":"a.a","mode":"managed","type":"a","name":"a","change":{"actions":["create"]}} => change 1 is malformed
{"address":"a.a","mode":"managed","type":"a","name":"a","change":{"actions":["create"]}},{"address":"a.a","mode":"x","type":"a","name":"a","change":{"actions":["create"]}} => change 1 is malformed
{"address":"a.a","mode":"managed","type":"a","name":"a","change":{"actions":["create"]}},{"address":"a.a","mode":"managed","type":"a","name":"a","change":{"actions":[]}} => change 1 has an action list that is out of scope
{"address":"a.a","mode":"managed","type":"a","name":"a","change":{"actions":["create"]}},{"address":"a.a","module_address":"b","mode":"managed","type":"a","name":"a","change":{"actions":["create"]}} => change 1 has an address that does not fit its module
{"address":"a.a","mode":"managed","type":"a","name":"a","change":{"actions":["create"]}},{"address":"a.a","mode":"managed","type":"a","name":"a","change":{"actions":["create"]}} => change 1 repeats an earlier change
{"address":"a.b","mode":"x","type":"a","name":"b","change":{"actions":["remove"]}} => change 0 is malformed

{"format_version":"1.2","resource_changes":[CELL]}
:
{"address":"a.b","mode":"managed","type":"a","name":"b","change":{"actions":["delete"]}},{"address":"a.b","deposed":"00000001","mode":"managed","type":"a","name":"b","change":{"actions":["delete"]}},{"address":"a.b","deposed":"00000002","mode":"managed","type":"a","name":"b","change":{"actions":["delete"]}} => accepted
{"address":"a.b","deposed":"00000001","mode":"managed","type":"a","name":"b","change":{"actions":["delete"]}},{"address":"a.b","deposed":"00000002","mode":"managed","type":"a","name":"b","change":{"actions":["delete"]}},{"address":"a.b","mode":"managed","type":"a","name":"b","change":{"actions":["delete"]}} => accepted
{"address":"a.b","mode":"managed","type":"a","name":"b","change":{"actions":["delete"]}},{"address":"a.b","deposed":"00000001","mode":"managed","type":"a","name":"b","change":{"actions":["delete"]}},{"address":"a.b","mode":"managed","type":"a","name":"b","change":{"actions":["delete"]}} => change 2 repeats an earlier change
{"address":"a.b","mode":"managed","type":"a","name":"b","change":{"actions":["delete"]}},{"address":"a.b","mode":"managed","type":"a","name":"b","change":{"actions":["delete"]}},{"address":"a.b","deposed":"00000001","mode":"managed","type":"a","name":"b","change":{"actions":["delete"]}} => change 1 repeats an earlier change
{"address":"a.b","deposed":"00000001","mode":"managed","type":"a","name":"b","change":{"actions":["delete"]}},{"address":"a.b","mode":"managed","type":"a","name":"b","change":{"actions":["delete"]}},{"address":"a.b","deposed":"00000001","mode":"managed","type":"a","name":"b","change":{"actions":["delete"]}} => change 2 repeats an earlier change
{"address":"a.b","mode":"managed","type":"a","name":"b","change":{"actions":["delete"]}},{"address":"a.b","deposed":"00000001","mode":"managed","type":"a","name":"b","change":{"actions":["delete"]}},{"address":"a.b","deposed":"","mode":"managed","type":"a","name":"b","change":{"actions":["delete"]}} => change 2 repeats an earlier change

{"format_version":"1.2","terraform_version":"1.9.0","resource_changes":[{"address":"module.a[\"x.y\"].aws_instance.web[\"k\\\"1\"]",CELL,"mode":"managed","type":"aws_instance","name":"web","index":"k\"1","change":{"actions":["create"]}}]}
:
"module_address":"module.b" => change 0 has an address that does not fit its module

{"format_version":"1.2","terraform_version":"1.9.0","resource_changes":[{"address":"module.a[\"x.y\"].CELL,"module_address":"module.a[\"x.y\"]","mode":"managed","type":"aws_instance","name":"web","index":"k\"1","change":{"actions":["create"]}}]}
:
" => change 0 has an address that does not fit its module

CELL
:
{"other":{"resource_changes":5},"format_version":"1.0"} => accepted
{"format_version":5,"format_version":"1.0"} => accepted
{"format_version":"1.0","resource_changes":[5],"resource_changes":[]} => accepted
{"format_version":"1.0","resource_changes":[],"resource_changes":[5]} => change 0 is malformed
{"format_version":"1.0","resource_changes":[5],"resource_changes":null} => accepted
{"format_version":"1.0","resource_changes":[5],"resource_changes":{}} => the plan is not a plan of format 1.x
{"format_version":"1.0","resource_changes":[],"format_version":"2.0"} => the plan is not a plan of format 1.x
{"z":1,"format_version":"1.0","a":[2],"terraform_version":"1","m":{},"a":3} => accepted
{"format\u005fversion":"1.0"} => accepted
{"":0,"format_version":"1.0","":[{"":0},{"":0}]} => accepted
{"format_version":"1.0","Terraform_version":5} => accepted
{"format_version":"1.0","terraform_version":{"format_version":"1.0"}} => the plan is not a plan of format 1.x
{"format_version":{"format_version":"1.0"}} => the plan is not a plan of format 1.x
{"change":{"actions":5},"id":{},"format_version":"1.0"} => accepted

{"format_version":"1.0",CELL}
:
"resource_changes":[{"address":"a.b","mode":"managed","type":"a","name":"b","change":{"actions":["create"]}}],"resource_changes":[{"address":"a.b","mode":"managed","type":"a","name":"b","change":{"actions":["create"]}}] => accepted
"resource_changes":[{"address":"a.b","mode":"managed","type":"a","name":"b","change":{"actions":["create"]}},{"address":"a.b","mode":"managed","type":"a","name":"b","change":{"actions":["create"]}}],"resource_changes":[{"address":"a.b","mode":"managed","type":"a","name":"b","change":{"actions":["create"]}}] => accepted
"resource_changes":[{"address":"a.b","mode":"managed","type":"a","name":"b","change":{"actions":["create"]}}],"resource_changes":[{"address":"a.b","mode":"managed","type":"a","name":"b","change":{"actions":["create"]}},{"address":"a.b","mode":"managed","type":"a","name":"b","change":{"actions":["create"]}}] => change 1 repeats an earlier change
"resource_changes":[{"address":"a.b","mode":"managed","type":"a","name":"b","change":{"actions":["create"]}},5],"resource_changes":[5] => change 0 is malformed
"resource_changes":[{"address":"a.b","mode":"managed","type":"a","name":"b","change":{"actions":["create"]}}],"resource_changes":null => accepted

{"other":[CELL],"format_version":"1.0"}
{"format_version":"1.0","other":CELL}
:
1e400 => the plan is not JSON
[0,1e400] => the plan is not JSON
{"a":-1e400} => the plan is not JSON
[1 2] => the plan is not JSON
[1,] => the plan is not JSON
{"a":1,} => the plan is not JSON
{"a" 1} => the plan is not JSON
{"a"} => the plan is not JSON
[1} => the plan is not JSON
{"a":1] => the plan is not JSON
01 => the plan is not JSON
tru => the plan is not JSON
"\x" => the plan is not JSON
"\ud800" => the plan is not JSON
[[[{"a":[nul]}]]] => the plan is not JSON
-0 => accepted
1e-400 => accepted
"\ud83d\ude00" => accepted
{"a":{"a":{"a":[[],{},""]}}} => accepted

{"format_version":"1.0","terraform_version":[CELL]}
:
1e400 => the plan is not JSON
[0,1e400] => the plan is not JSON
{"a":-1e400} => the plan is not JSON
[1 2] => the plan is not JSON
[1,] => the plan is not JSON
{"a":1,} => the plan is not JSON
{"a" 1} => the plan is not JSON
{"a"} => the plan is not JSON
[1} => the plan is not JSON
{"a":1] => the plan is not JSON
01 => the plan is not JSON
tru => the plan is not JSON
"\x" => the plan is not JSON
"\ud800" => the plan is not JSON
[[[{"a":[nul]}]]] => the plan is not JSON
-0 => the plan is not a plan of format 1.x
1e-400 => the plan is not a plan of format 1.x
"\ud83d\ude00" => the plan is not a plan of format 1.x
{"a":{"a":{"a":[[],{},""]}}} => the plan is not a plan of format 1.x

{"format_version":"1.2","terraform_version":"1.9.0","resource_changes":[{"address":"null_resource.a","mode":"managed","type":"null_resource","name":"a","change":{"actions":CELL}}]}
:
["create"] => accepted
["delete","create"] => accepted
["delete","create","create"] => change 0 has an action list that is out of scope
["delete","create",5,{"a":[]}] => change 0 has an action list that is out of scope
["delete","create",5,"x","x","x"] => change 0 has an action list that is out of scope
["delete","create",5,"x","x",1e400] => the plan is not JSON
["delete","create",5,["x",]] => the plan is not JSON
[["create"]] => change 0 has an action list that is out of scope
[{"create":"create"}] => change 0 has an action list that is out of scope

{"format_version":"1.2","terraform_version":"1.9.0","resource_changes":[{"address":"null_resource.a","mode":"managed","type":"null_resource","name":"a","change":CELL}]}
:
{"actions":["create"],"before":{"id":{"id":"a"},"name":[]}} => accepted
{"actions":["create"],"before":{"tags":{"id":1e400}}} => the plan is not JSON
{"before":{"id":"a","id":"b"},"actions":5,"before_sensitive":{"id":[true],"tags":true},"actions":["create"]} => accepted
{"actions":["create"],"after":{"id":[0,0,0]},"before":[{"id":"a"}],"before_sensitive":[true]} => accepted
{"after":["create"],"before":{"actions":["create"]}} => change 0 is malformed

{"format_version":"1.0","other":CELL}
:
[[[[[[[[[[[[[[[[[[[[[[[[[[[[[[[[[[[[[[[[[[[[[[[[[[[[[[[[[[[[[[[[[[[[[[[[[[[[[[[[[[[[[[[[[[[[[[[[[[[[]]]]]]]]]]]]]]]]]]]]]]]]]]]]]]]]]]]]]]]]]]]]]]]]]]]]]]]]]]]]]]]]]]]]]]]]]]]]]]]]]]]]]]]]]]]]]]]]]]]] => accepted
[[[[[[[[[[[[[[[[[[[[[[[[[[[[[[[[[[[[[[[[[[[[[[[[[[[[[[[[[[[[[[[[[[[[[[[[[[[[[[[[[[[[[[[[[[[[[[[[[[[[[[[[[[[[[[[[[[[[[[[[[[[[[[]]]]]]]]]]]]]]]]]]]]]]]]]]]]]]]]]]]]]]]]]]]]]]]]]]]]]]]]]]]]]]]]]]]]]]]]]]]]]]]]]]]]]]]]]]]]]]]]]]]]]]]]]]]]]]]]]]]]]]]]]]]]]] => accepted
[[[[[[[[[[[[[[[[[[[[[[[[[[[[[[[[[[[[[[[[[[[[[[[[[[[[[[[[[[[[[[[[[[[[[[[[[[[[[[[[[[[[[[[[[[[[[[[[[[[[[[[[[[[[[[[[[[[[[[[[[[[[[[[]]]]]]]]]]]]]]]]]]]]]]]]]]]]]]]]]]]]]]]]]]]]]]]]]]]]]]]]]]]]]]]]]]]]]]]]]]]]]]]]]]]]]]]]]]]]]]]]]]]]]]]]]]]]]]]]]]]]]]]]]]]]]]] => the plan is not JSON
[[[[[[[[[[[[[[[[[[[[[[[[[[[[[[[[[[[[[[[[[[[[[[[[[[[[[[[[[[[[[[[[[[[[[[[[[[[[[[[[[[[[[[[[[[[[[[[[[[[[[[[[[[[[[[[[[[[[[[[[[[[[[[[[[[[[[[[[[[[[[[[[[[[[[[[[[[[[[[[[[[[[[[[[[[[[[[[[[[[[[[[[[[[[[[[[[[[[[[[[]]]]]]]]]]]]]]]]]]]]]]]]]]]]]]]]]]]]]]]]]]]]]]]]]]]]]]]]]]]]]]]]]]]]]]]]]]]]]]]]]]]]]]]]]]]]]]]]]]]]]]]]]]]]]]]]]]]]]]]]]]]]]]]]]]]]]]]]]]]]]]]]]]]]]]]]]]]]]]]]]]]]]]]]]]]]]]]]]]]]]]]]]]]]]]]]]]]]]]]] => the plan is not JSON

{"format_version":"1.0","resource_changes":[NUMBERS,CELL]}
:
5 => the plan has more than 10000 changes
[],{},5 => the plan has more than 10000 changes
[],{},1e400 => the plan is not JSON
[],{},[5,] => the plan is not JSON
5],"resource_changes":[ => accepted
5],"resource_changes":[5 => change 0 is malformed
5],"format_version":["2.0" => the plan is not a plan of format 1.x"#;

/// Compares the results for the plans of a block, with these numbers in place of `NUMBERS`.
fn block_is_answered(rt: &impl Abort, alloc: Global, numbers: &str, block: &str) {
    let (plans, table) = block.split_once("\n:\n").expect(rt, block);
    for plan in plans.lines() {
        let plan = put(rt, alloc, plan, "NUMBERS", numbers);
        plans_are_answered(rt, alloc, plan, table);
    }
}

#[test]
fn plans_are_accepted_or_refused(rt: HostRuntime) {
    let alloc = rt.alloc();
    let numbers = listed(&rt, alloc, 10_000, false, "5");
    for block in PLANS.split("\n\n") {
        block_is_answered(&rt, alloc, numbers, block);
    }
}
