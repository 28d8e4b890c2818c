//! Skipped steps: their outcomes, and the steps that they wait for.

use super::*;

/// A plan that replaces `null_resource.a` and creates `null_resource.b`.
const REPLACE_CREATE: &str =
    r#"{"format_version":"1.2","resource_changes":[{"address":"null_resource.a","mode":"managed","type":"null_resource","name":"a","change":{"actions":["delete","create"]}},{"address":"null_resource.b","mode":"managed","type":"null_resource","name":"b","change":{"actions":["create"]}}]}"#;

/// A script that skips the second step of the replacement. This step names the other change twice.
const NAMED_TWICE: &str =
    r#"{"changes":[{"address":"null_resource.a","steps":[{"seconds":0},{"skipped":true,"after":["null_resource.b","null_resource.b"]}]}]}"#;

/// The script for the first change as `Debug` prints it: both steps, the first skipped step, and
/// whether the script has waits.
pub fn stated(rt: &impl Abort, alloc: Global, script: &Script) -> &'static str {
    let stated = (
        script.outcome(0, 0),
        script.outcome(0, 1),
        script.skipped(0),
        script.has_waits(),
    );
    printed(rt, alloc, &stated)
}

/// The second step of the replacement waits for the named steps, skipped or not.
#[test]
fn a_skipped_step_names_steps(rt: HostRuntime) {
    let script = script_of(&rt, rt.alloc(), REPLACE_CREATE, NAMED_TWICE);
    let named = script.after(0, 1).expect(&rt, "names");
    holds(&rt, "two", named.len() == 2);
}
