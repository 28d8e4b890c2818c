//! Provisioners of a script, and which of them run.

use super::table::{compare, listed, put};
use super::*;
use apply_plan::{Outcome, StepKind};

/// The outcome of the only step.
fn only_outcome<'a>(rt: &impl Abort, script: &'a Script) -> &'a Outcome {
    script.outcome(0, 0).expect(rt, "nothing is said")
}

/// The seconds of the only step, with its provisioners.
pub fn seconds_taken(rt: &impl Abort, script: &Script) -> u32 {
    let outcome = script.outcome(0, 0).expect(rt, "nothing is said");
    outcome.took(StepKind::Create)
}

/// The end of the only step as `Debug` prints it: its seconds, how many provisioners run, its
/// failure if any, and whether it fails.
pub fn comes(rt: &impl Abort, alloc: Global, script: &Script) -> &'static str {
    let outcome = only_outcome(rt, script);
    let comes = (
        seconds_taken(rt, script),
        outcome.provisioners.count_that_run(),
        outcome.failure(),
        outcome.fails(),
    );
    printed(rt, alloc, &comes)
}

/// A script with the most provisioners, each with the most outputs.
fn most_provisioners(rt: &impl Abort, alloc: Global) -> &'static Script {
    let output = listed(rt, alloc, 100, false, r#""hi""#);
    let one = r#"{"provisioner":"a","seconds":10800,"output":[CELL]}"#;
    let one = put(rt, alloc, one, "CELL", output);
    let script =
        r#"{"changes":[{"address":"null_resource.a","steps":[{"seconds":0,"provisioners":[CELL]}]}]}"#;
    let eight = listed(rt, alloc, 8, false, one);
    script_of(rt, alloc, ONE_CREATE, put(rt, alloc, script, "CELL", eight))
}

/// Fails unless the step has the most provisioners, and the last one the most outputs.
fn has_the_most(rt: &impl Abort, script: &Script) {
    holds(rt, "a day", seconds_taken(rt, script) == 86_400);
    let provisioners = &only_outcome(rt, script).provisioners;
    holds(rt, "eight", provisioners.len() == 8);
    let output = &provisioners.get(7).output;
    holds(rt, "a hundred", output.len() == 100);
    compare(rt, "the last", output.get(99).text.as_str(), "hi");
}

/// The most provisioners, each with the most outputs.
#[test]
fn the_most_provisioners_are_read(rt: HostRuntime) {
    has_the_most(&rt, most_provisioners(&rt, rt.alloc()));
}
