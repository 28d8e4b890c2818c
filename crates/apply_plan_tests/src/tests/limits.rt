//! The greatest number of changes, and a script with an entry for each.

use super::table::{listed, put};
use super::*;

/// A plan of 10,000 changes, and a script with an entry for each, in reverse order.
///
/// The step of each change takes as many seconds as the number of the change.
fn largest_script(rt: &impl Abort, alloc: Global) -> &'static Script {
    let element =
        r#"{"address":"a.aNUMBER","mode":"managed","type":"a","name":"aNUMBER","change":{"actions":["update"]}}"#;
    let entry = r#"{"address":"a.aNUMBER","steps":[{"seconds":NUMBER}]}"#;
    let elements = listed(rt, alloc, 10_000, false, element);
    let entries = listed(rt, alloc, 10_000, true, entry);
    let plan = r#"{"format_version":"1.2","resource_changes":[CELL]}"#;
    let plan = put(rt, alloc, plan, "CELL", elements);
    let script = put(rt, alloc, r#"{"changes":[CELL]}"#, "CELL", entries);
    script_of(rt, alloc, plan, script)
}

/// The seconds of the step, if the script states its outcome.
fn seconds_of(script: &Script, change: u32, step: u8) -> Option<u32> {
    match script.outcome(change, step) {
        Some(outcome) => Some(outcome.seconds),
        None => None,
    }
}

/// Whether the first step of the change takes these seconds, and the script states no second step.
fn takes_its_number(script: &Script, change: u32) -> bool {
    seconds_of(script, change, 0) == Some(change) && seconds_of(script, change, 1).is_none()
}

#[test]
fn each_of_10000_changes_has_an_entry(rt: HostRuntime) {
    let script = largest_script(&rt, rt.alloc());
    for number in 0..10_000 {
        holds(&rt, "as many seconds", takes_its_number(script, number));
    }
    let behind = seconds_of(script, 10_000, 0);
    holds(&rt, "nothing is said", behind.is_none());
}
