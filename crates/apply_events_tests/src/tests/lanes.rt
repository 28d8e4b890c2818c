//! The events of lanes in the order of time.

use super::*;

/// Each block has the actions of the changes and their steps in the script. Then it has a number of
/// lanes and their events. An event has its second, its lane, the change with its step, and its
/// kind. In the same second the lower lane comes first, with all its events. A free lane takes the
/// next change.
const REPORTED: &str = r#"["create"] => [{"seconds":12}]
["create"] => [{"seconds":12}]
["create"] => [{"seconds":12}]
in 1 => (0, 0, 0, 0, Start); (10, 0, 0, 0, Progress(10)); (12, 0, 0, 0, Complete(12)); (12, 0, 1, 0, Start); (22, 0, 1, 0, Progress(10)); (24, 0, 1, 0, Complete(12)); (24, 0, 2, 0, Start); (34, 0, 2, 0, Progress(10)); (36, 0, 2, 0, Complete(12));
in 2 => (0, 0, 0, 0, Start); (0, 1, 1, 0, Start); (10, 0, 0, 0, Progress(10)); (10, 1, 1, 0, Progress(10)); (12, 0, 0, 0, Complete(12)); (12, 0, 2, 0, Start); (12, 1, 1, 0, Complete(12)); (22, 0, 2, 0, Progress(10)); (24, 0, 2, 0, Complete(12));
in 3 => (0, 0, 0, 0, Start); (0, 1, 1, 0, Start); (0, 2, 2, 0, Start); (10, 0, 0, 0, Progress(10)); (10, 1, 1, 0, Progress(10)); (10, 2, 2, 0, Progress(10)); (12, 0, 0, 0, Complete(12)); (12, 1, 1, 0, Complete(12)); (12, 2, 2, 0, Complete(12));
in 64 => (0, 0, 0, 0, Start); (0, 1, 1, 0, Start); (0, 2, 2, 0, Start); (10, 0, 0, 0, Progress(10)); (10, 1, 1, 0, Progress(10)); (10, 2, 2, 0, Progress(10)); (12, 0, 0, 0, Complete(12)); (12, 1, 1, 0, Complete(12)); (12, 2, 2, 0, Complete(12));

["create"] => [{"seconds":3}]
["create"] => [{"seconds":3}]
["create"] => [{"seconds":2}]
["create"] => [{"seconds":2}]
["create"] => [{"seconds":1}]
in 2 => (0, 0, 0, 0, Start); (0, 1, 1, 0, Start); (3, 0, 0, 0, Complete(3)); (3, 0, 2, 0, Start); (3, 1, 1, 0, Complete(3)); (3, 1, 3, 0, Start); (5, 0, 2, 0, Complete(2)); (5, 0, 4, 0, Start); (5, 1, 3, 0, Complete(2)); (6, 0, 4, 0, Complete(1));

["delete","create"] => [{"seconds":5},{"seconds":4}]
["create"] => [{"seconds":11}]
["create"] => [{"seconds":1}]
in 2 => (0, 0, 0, 0, Start); (0, 1, 1, 0, Start); (5, 0, 0, 0, Complete(5)); (5, 0, 0, 1, Start); (9, 0, 0, 1, Complete(4)); (9, 0, 2, 0, Start); (10, 0, 2, 0, Complete(1)); (10, 1, 1, 0, Progress(10)); (11, 1, 1, 0, Complete(11));

["create"] => [{"seconds":5,"failed":{"summary":"x"}}]
["create"] => [{"seconds":7}]
["create"] => [{"seconds":2}]
in 2 => (0, 0, 0, 0, Start); (0, 1, 1, 0, Start); (5, 0, 0, 0, Errored(5)); (5, 0, 0, 0, ErrorNote); (5, 0, 2, 0, Start); (7, 0, 2, 0, Complete(2)); (7, 1, 1, 0, Complete(7));

["create"] => [{"seconds":2,"provisioners":[{"provisioner":"a","seconds":3,"output":["x"]}]}]
["create"] => [{"seconds":4}]
["create"] => [{"seconds":1}]
in 2 => (0, 0, 0, 0, Start); (0, 1, 1, 0, Start); (2, 0, 0, 0, ProvisionStart(0)); (4, 1, 1, 0, Complete(4)); (4, 1, 2, 0, Start); (5, 0, 0, 0, ProvisionOutput { prov: 0, line: 0 }); (5, 0, 0, 0, ProvisionComplete(0)); (5, 0, 0, 0, Complete(5)); (5, 1, 2, 0, Complete(1));

["create"] => []
["no-op"] => []
["create"] => []
["create"] => []
in 2 => (0, 0, 0, 0, Start); (0, 0, 0, 0, Complete(0)); (0, 0, 2, 0, Start); (0, 0, 2, 0, Complete(0)); (0, 0, 3, 0, Start); (0, 0, 3, 0, Complete(0));
in 64 => (0, 0, 0, 0, Start); (0, 0, 0, 0, Complete(0)); (0, 0, 2, 0, Start); (0, 0, 2, 0, Complete(0)); (0, 0, 3, 0, Start); (0, 0, 3, 0, Complete(0));

["create"] => [{"seconds":2,"failed":{"summary":"boom"}}]
["read"] => [{"seconds":9,"failed":{"severity":"warning","summary":"no"}}]
in 1 => (0, 0, 0, 0, Start); (2, 0, 0, 0, Errored(2)); (2, 0, 0, 0, ErrorNote); (2, 0, 1, 0, Start); (11, 0, 1, 0, WarnNote);"#;

/// Blocks with steps that wait for others.
const WAITING: &str = r#"["create"] => [{"seconds":2}]
["create"] => [{"seconds":1,"after":["null_resource.r0"]}]
["create"] => [{"seconds":4}]
in 2 => (0, 0, 0, 0, Start); (0, 1, 2, 0, Start); (2, 0, 0, 0, Complete(2)); (2, 0, 1, 0, Start); (3, 0, 1, 0, Complete(1)); (4, 1, 2, 0, Complete(4));
in 1 => (0, 0, 0, 0, Start); (2, 0, 0, 0, Complete(2)); (2, 0, 2, 0, Start); (6, 0, 2, 0, Complete(4)); (6, 0, 1, 0, Start); (7, 0, 1, 0, Complete(1));

["create"] => [{"seconds":0,"after":["null_resource.r2"]}]
["create"] => [{"seconds":0,"after":["null_resource.r0"]}]
["create"] => [{"seconds":0}]
in 2 => (0, 0, 2, 0, Start); (0, 0, 2, 0, Complete(0)); (0, 0, 0, 0, Start); (0, 0, 0, 0, Complete(0)); (0, 1, 1, 0, Start); (0, 1, 1, 0, Complete(0));

["create"] => [{"seconds":1}]
["create"] => [{"seconds":3}]
["create"] => [{"seconds":1,"after":["null_resource.r1"]}]
["create"] => [{"seconds":1,"after":["null_resource.r1"]}]
in 2 => (0, 0, 0, 0, Start); (0, 1, 1, 0, Start); (1, 0, 0, 0, Complete(1)); (3, 1, 1, 0, Complete(3)); (3, 0, 2, 0, Start); (3, 1, 3, 0, Start); (4, 0, 2, 0, Complete(1)); (4, 1, 3, 0, Complete(1));

["create"] => [{"seconds":2,"failed":{"summary":"boom"}}]
["create"] => [{"seconds":1,"after":["null_resource.r0"]}]
["create"] => [{"seconds":1,"after":["null_resource.r1","null_resource.r3"]}]
["create"] => [{"seconds":3}]
in 10 => (0, 0, 0, 0, Start); (0, 1, 3, 0, Start); (2, 0, 0, 0, Errored(2)); (2, 0, 0, 0, ErrorNote); (3, 1, 3, 0, Complete(3));

["delete"] => [{"seconds":1,"after":["null_resource.r1","null_resource.r2"]}]
["delete"] => [{"seconds":2}]
["delete"] => [{"seconds":3}]
in 10 => (0, 0, 1, 0, Start); (0, 1, 2, 0, Start); (2, 0, 1, 0, Complete(2)); (3, 1, 2, 0, Complete(3)); (3, 2, 0, 0, Start); (4, 2, 0, 0, Complete(1));

["create"] => [{"seconds":1}]
["create"] => [{"seconds":1,"after":["null_resource.r3"]}]
["create"] => [{"seconds":1,"after":["null_resource.r0"]}]
["create"] => [{"seconds":1}]
["create"] => [{"seconds":5}]
in 1 => (0, 0, 0, 0, Start); (1, 0, 0, 0, Complete(1)); (1, 0, 3, 0, Start); (2, 0, 3, 0, Complete(1)); (2, 0, 4, 0, Start); (7, 0, 4, 0, Complete(5)); (7, 0, 2, 0, Start); (8, 0, 2, 0, Complete(1)); (8, 0, 1, 0, Start); (9, 0, 1, 0, Complete(1));

["read"] => [{"seconds":3,"failed":{"severity":"warning","summary":"no"}}]
["create"] => [{"seconds":2,"after":["null_resource.r0"]}]
in 1 => (0, 0, 0, 0, Start); (3, 0, 0, 0, WarnNote); (3, 0, 1, 0, Start); (5, 0, 1, 0, Complete(2));

["no-op"] => []
["delete"] => [{"seconds":1,"after":["null_resource.r2"]}]
["update"] => [{"seconds":2,"after":["null_resource.r0"]}]
in 2 => (0, 0, 2, 0, Start); (2, 0, 2, 0, Complete(2)); (2, 1, 1, 0, Start); (3, 1, 1, 0, Complete(1));"#;

/// Blocks with steps of replacements that wait, or that others wait for. If the second step names a
/// step to wait for, another turn may use the lane between both steps.
const WAITING_REPLACEMENTS: &str =
    r#"["delete","create"] => [{"seconds":1,"after":[{"address":"null_resource.r1","step":0}]},{"seconds":2}]
["delete","create"] => [{"seconds":2},{"seconds":1,"after":["null_resource.r0"]}]
in 10 => (0, 0, 1, 0, Start); (2, 0, 1, 0, Complete(2)); (2, 1, 0, 0, Start); (3, 1, 0, 0, Complete(1)); (3, 1, 0, 1, Start); (5, 1, 0, 1, Complete(2)); (5, 2, 1, 1, Start); (6, 2, 1, 1, Complete(1));

["create","delete"] => [{"seconds":1},{"seconds":2,"after":["null_resource.r1"]}]
["update"] => [{"seconds":3,"after":[{"address":"null_resource.r0","step":0}]}]
in 10 => (0, 0, 0, 0, Start); (1, 0, 0, 0, Complete(1)); (1, 1, 1, 0, Start); (4, 1, 1, 0, Complete(3)); (4, 2, 0, 1, Start); (6, 2, 0, 1, Complete(2));

["create","delete"] => [{"seconds":1},{"seconds":2,"after":["null_resource.r1"]}]
["update"] => [{"seconds":3,"failed":{"summary":"x"},"after":[{"address":"null_resource.r0","step":0}]}]
in 10 => (0, 0, 0, 0, Start); (1, 0, 0, 0, Complete(1)); (1, 1, 1, 0, Start); (4, 1, 1, 0, Errored(3)); (4, 1, 1, 0, ErrorNote);

["delete","create"] => [{"seconds":1},{"seconds":1}]
["create"] => []
["create"] => [{"seconds":1,"after":[{"address":"null_resource.r0","step":0}]}]
in 1 => (0, 0, 0, 0, Start); (1, 0, 0, 0, Complete(1)); (1, 0, 0, 1, Start); (2, 0, 0, 1, Complete(1)); (2, 0, 1, 0, Start); (2, 0, 1, 0, Complete(0)); (2, 0, 2, 0, Start); (3, 0, 2, 0, Complete(1));
in 2 => (0, 0, 0, 0, Start); (0, 1, 1, 0, Start); (0, 1, 1, 0, Complete(0)); (1, 0, 0, 0, Complete(1)); (1, 0, 0, 1, Start); (1, 1, 2, 0, Start); (2, 0, 0, 1, Complete(1)); (2, 1, 2, 0, Complete(1));

["delete","create"] => [{"seconds":1},{"seconds":1,"after":[{"address":"null_resource.r0","step":0}]}]
["create"] => [{"seconds":2}]
in 1 => (0, 0, 0, 0, Start); (1, 0, 0, 0, Complete(1)); (1, 0, 1, 0, Start); (3, 0, 1, 0, Complete(2)); (3, 0, 0, 1, Start); (4, 0, 0, 1, Complete(1));"#;

/// Blocks whose deletes are halted before they start, and take no time. Steps that wait for them
/// are left out.
pub(super) const HALTED: &str = r#"["delete","create"] => [{"seconds":5},{"seconds":4}]
["create"] => [{"seconds":11}]
["create"] => [{"seconds":1}]
in 2 => (0, 0, 0, 0, Halted { phase: Pre, hook: 1 }); (0, 0, 1, 0, Start); (0, 1, 2, 0, Start); (1, 1, 2, 0, Complete(1)); (10, 0, 1, 0, Progress(10)); (11, 0, 1, 0, Complete(11));

["delete"] => [{"seconds":2}]
["create"] => [{"seconds":1,"after":["null_resource.r0"]}]
["create"] => [{"seconds":1}]
in 2 => (0, 0, 0, 0, Halted { phase: Pre, hook: 1 }); (0, 0, 2, 0, Start); (1, 0, 2, 0, Complete(1));"#;

/// A plan with the changes in the place of `CELL`.
const CHANGES: &str = r#"{"format_version":"1.2","resource_changes":[CELL]}"#;

/// A comma and the change of that number, with its actions in the place of `ACTIONS`.
const CHANGE: &str =
    r#",{"address":"null_resource.rNUMBER","mode":"managed","type":"null_resource","name":"rNUMBER","change":{"actions":ACTIONS}}"#;

/// A script with the entries in the place of `CELL`.
const ENTRIES: &str = r#"{"changes":[CELL]}"#;

/// A comma and the entry of that number, with its steps in the place of `STEPS`.
const ENTRY: &str = r#",{"address":"null_resource.rNUMBER","steps":STEPS}"#;

/// The text with what stands for a change, and the number of the change, in their places.
fn filled(rt: &impl Abort, alloc: Global, text: &str, change: &str, number: u32) -> &'static str {
    let (actions, steps) = parted(rt, change);
    let text = put(rt, alloc, text, "ACTIONS", actions);
    let text = put(rt, alloc, text, "STEPS", steps);
    put(rt, alloc, text, "NUMBER", printed(rt, alloc, &number))
}

/// A text for each change, with commas between them.
fn listed(rt: &impl Abort, alloc: Global, changes: &str, text: &str) -> &'static str {
    let mut list = String::new(alloc);
    let mut number: u32 = 0;
    for change in changes.lines() {
        push(rt, &mut list, filled(rt, alloc, text, change, number));
        number = number.wrapping_add(1);
    }
    let list = leaked(rt, alloc, list).as_str();
    list.strip_prefix(",").expect(rt, "a change")
}

/// The plan of changes `null_resource.r0` and so on, and the script.
fn read_both(rt: &impl Abort, alloc: Global, changes: &str) -> (&'static Plan, &'static Script) {
    let planned = listed(rt, alloc, changes, CHANGE);
    let plan = plan_in(rt, alloc, put(rt, alloc, CHANGES, "CELL", planned));
    let scripted = listed(rt, alloc, changes, ENTRY);
    let script = put(rt, alloc, ENTRIES, "CELL", scripted);
    (plan, script_in(rt, alloc, plan, script))
}

/// The events of so many lanes. Each has its second, its lane, the change with its step, and its
/// kind.
pub(super) fn reported(
    rt: &impl Abort,
    alloc: Global,
    plan: &Plan,
    script: &Script,
    registry: &Registry,
    count: u8,
) -> &'static str {
    holds(rt, "some lanes", 0 < count);
    holds(rt, "64 lanes at most", count <= 64);
    let lanes = Lanes::start(alloc, plan, script, registry, count);
    let mut lanes = lanes.ok().expect(rt, "memory");
    let mut text = String::new(alloc);
    while let Some(event) = lanes.next() {
        push_event(rt, &mut text, &event);
    }
    leaked(rt, alloc, text).as_str()
}

/// Fails if so many lanes emit other events of the changes than the row lists.
fn row_is_reported(rt: &impl Abort, alloc: Global, registry: &Registry, changes: &str, row: &str) {
    let (count, wanted) = parted(rt, row);
    let count = count.parse::<u8>().ok().expect(rt, count);
    let (plan, script) = read_both(rt, alloc, changes);
    let actual = reported(rt, alloc, plan, script, registry, count);
    text_is(rt, row, actual.trim_end(), wanted);
}

/// Fails if lanes emit other events than a table lists. Each block of the table has the changes,
/// one in a line, and then the rows.
pub(super) fn lanes_report(rt: &impl Abort, alloc: Global, registry: &Registry, table: &str) {
    let mut changes = String::new(alloc);
    for line in table.lines() {
        if let Some(row) = line.strip_prefix("in ") {
            row_is_reported(rt, alloc, registry, changes.as_str(), row);
        } else if line.is_empty() {
            changes.clear();
        } else {
            push(rt, &mut changes, line);
            push(rt, &mut changes, "\n");
        }
    }
}

#[test]
fn changes_in_lanes(rt: HostRuntime) {
    let alloc = rt.alloc();
    let none = leaked(&rt, alloc, Registry::new(alloc));
    lanes_report(&rt, alloc, none, REPORTED);
    lanes_report(&rt, alloc, none, WAITING);
    lanes_report(&rt, alloc, none, WAITING_REPLACEMENTS);
}
