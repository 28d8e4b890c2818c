//! The events of a change, their counts, and the state of the runner between them.

use super::*;

/// Each row has the actions of a change, the steps of its script, and its events. An event has its
/// second, its worker, the change with its step, and its kind. Between events stand the step that
/// begins next, the end of the change so far, and the totals. The totals are: added, changed,
/// removed, failed and halted. A change ends before its first skipped step. A read that only warns
/// has the warning in place of its end.
const WORKED: &str =
    r#"["delete","create"] => [{"seconds":1},{"seconds":2,"id":"42"}] => begins 0; (0, 7, 0, 0, Start); (1, 7, 0, 0, Complete(1)); counted (0, 0, 1, 0, 0); ended 1; begins 1; (1, 7, 0, 1, Start); (3, 7, 0, 1, Complete(2)); counted (1, 0, 1, 0, 0); ended 3;
["create","delete"] => [{"seconds":0},{"seconds":4,"failed":{"summary":"boom"}}] => begins 0; (0, 7, 0, 0, Start); (0, 7, 0, 0, Complete(0)); counted (1, 0, 0, 0, 0); begins 1; (0, 7, 0, 1, Start); (4, 7, 0, 1, Errored(4)); counted (1, 0, 0, 1, 0); (4, 7, 0, 1, ErrorNote); ended 4;
["delete","create"] => [{"seconds":4,"failed":{"summary":"boom"}}] => begins 0; (0, 7, 0, 0, Start); (4, 7, 0, 0, Errored(4)); counted (0, 0, 0, 1, 0); (4, 7, 0, 0, ErrorNote); ended 4;
["update"] => [{"seconds":25}] => begins 0; (0, 7, 0, 0, Start); (10, 7, 0, 0, Progress(10)); (20, 7, 0, 0, Progress(20)); (25, 7, 0, 0, Complete(25)); counted (0, 1, 0, 0, 0); ended 25;
["update"] => [{"seconds":10}] => begins 0; (0, 7, 0, 0, Start); (10, 7, 0, 0, Complete(10)); counted (0, 1, 0, 0, 0); ended 10;
["update"] => [{"seconds":11}] => begins 0; (0, 7, 0, 0, Start); (10, 7, 0, 0, Progress(10)); (11, 7, 0, 0, Complete(11)); counted (0, 1, 0, 0, 0); ended 11;
["update"] => [{"seconds":0,"id":"i-1","warning":{"summary":"slow"}}] => begins 0; (0, 7, 0, 0, Start); (0, 7, 0, 0, Complete(0)); counted (0, 1, 0, 0, 0); (0, 7, 0, 0, WarnNote);
["delete","create"] => [{"seconds":1,"warning":{"summary":"slow"}},{"seconds":2}] => begins 0; (0, 7, 0, 0, Start); (1, 7, 0, 0, Complete(1)); counted (0, 0, 1, 0, 0); (1, 7, 0, 0, WarnNote); ended 1; begins 1; (1, 7, 0, 1, Start); (3, 7, 0, 1, Complete(2)); counted (1, 0, 1, 0, 0); ended 3;
["read"] => [] => begins 0; (0, 7, 0, 0, Start); (0, 7, 0, 0, Complete(0));
["no-op"] => [] => 
["forget"] => [] => 
["delete","create"] => [{"seconds":3},{"skipped":true}] => begins 0; (0, 7, 0, 0, Start); (3, 7, 0, 0, Complete(3)); counted (0, 0, 1, 0, 0); ended 3;
["delete","create"] => [{"skipped":true},{"seconds":5}] => 
["delete","create"] => [{"skipped":true},{"skipped":true}] => 
["create"] => [{"skipped":true}] => 
["read"] => [{"seconds":11,"failed":{"severity":"warning","summary":"no"}}] => begins 0; (0, 7, 0, 0, Start); (10, 7, 0, 0, Progress(10)); (11, 7, 0, 0, WarnNote); ended 11;
["read"] => [{"seconds":0,"failed":{"severity":"warning","summary":"no"}}] => begins 0; (0, 7, 0, 0, Start); (0, 7, 0, 0, WarnNote);"#;

/// Rows with provisioners. They run after the provider of a create, and before the provider of a
/// delete. After a failed provisioner the rest of the change is left undone, unless the provisioner
/// may fail. Progress comes within a provisioner, and after the last one. Outputs come at their
/// seconds, after the progress of the same second.
const PROVISIONED: &str =
    r#"["create"] => [{"seconds":4,"id":"7","provisioners":[{"provisioner":"local-exec","seconds":12,"output":["hi"]}]}] => begins 0; (0, 7, 0, 0, Start); (4, 7, 0, 0, ProvisionStart(0)); (10, 7, 0, 0, Progress(10)); (16, 7, 0, 0, ProvisionOutput { prov: 0, line: 0 }); (16, 7, 0, 0, ProvisionComplete(0)); (16, 7, 0, 0, Complete(16)); counted (1, 0, 0, 0, 0); ended 16;
["create"] => [{"seconds":1,"provisioners":[{"provisioner":"a","seconds":2,"failed":{"summary":"boom"}},{"provisioner":"b","seconds":3}]}] => begins 0; (0, 7, 0, 0, Start); (1, 7, 0, 0, ProvisionStart(0)); (3, 7, 0, 0, ProvisionErrored(0)); (3, 7, 0, 0, Errored(3)); counted (0, 0, 0, 1, 0); (3, 7, 0, 0, ErrorNote); ended 3;
["create"] => [{"seconds":10,"provisioners":[{"provisioner":"a","seconds":5}]}] => begins 0; (0, 7, 0, 0, Start); (10, 7, 0, 0, Progress(10)); (10, 7, 0, 0, ProvisionStart(0)); (15, 7, 0, 0, ProvisionComplete(0)); (15, 7, 0, 0, Complete(15)); counted (1, 0, 0, 0, 0); ended 15;
["create"] => [{"seconds":10,"provisioners":[{"provisioner":"a","seconds":0}]}] => begins 0; (0, 7, 0, 0, Start); (10, 7, 0, 0, ProvisionStart(0)); (10, 7, 0, 0, ProvisionComplete(0)); (10, 7, 0, 0, Complete(10)); counted (1, 0, 0, 0, 0); ended 10;
["create"] => [{"seconds":0,"provisioners":[{"provisioner":"a","seconds":0},{"provisioner":"b","seconds":0,"output":["",""]}]}] => begins 0; (0, 7, 0, 0, Start); (0, 7, 0, 0, ProvisionStart(0)); (0, 7, 0, 0, ProvisionComplete(0)); (0, 7, 0, 0, ProvisionStart(1)); (0, 7, 0, 0, ProvisionOutput { prov: 1, line: 0 }); (0, 7, 0, 0, ProvisionOutput { prov: 1, line: 1 }); (0, 7, 0, 0, ProvisionComplete(1)); (0, 7, 0, 0, Complete(0)); counted (1, 0, 0, 0, 0);
["create"] => [{"seconds":3,"provisioners":[{"provisioner":"a","seconds":7,"output":["x"]},{"provisioner":"b","seconds":1}]}] => begins 0; (0, 7, 0, 0, Start); (3, 7, 0, 0, ProvisionStart(0)); (10, 7, 0, 0, Progress(10)); (10, 7, 0, 0, ProvisionOutput { prov: 0, line: 0 }); (10, 7, 0, 0, ProvisionComplete(0)); (10, 7, 0, 0, ProvisionStart(1)); (11, 7, 0, 0, ProvisionComplete(1)); (11, 7, 0, 0, Complete(11)); counted (1, 0, 0, 0, 0); ended 11;
["create"] => [{"seconds":9,"provisioners":[{"provisioner":"a","seconds":2},{"provisioner":"b","seconds":30}]}] => begins 0; (0, 7, 0, 0, Start); (9, 7, 0, 0, ProvisionStart(0)); (10, 7, 0, 0, Progress(10)); (11, 7, 0, 0, ProvisionComplete(0)); (11, 7, 0, 0, ProvisionStart(1)); (20, 7, 0, 0, Progress(20)); (30, 7, 0, 0, Progress(30)); (40, 7, 0, 0, Progress(40)); (41, 7, 0, 0, ProvisionComplete(1)); (41, 7, 0, 0, Complete(41)); counted (1, 0, 0, 0, 0); ended 41;
["create"] => [{"seconds":25,"provisioners":[{"provisioner":"a","seconds":5}]}] => begins 0; (0, 7, 0, 0, Start); (10, 7, 0, 0, Progress(10)); (20, 7, 0, 0, Progress(20)); (25, 7, 0, 0, ProvisionStart(0)); (30, 7, 0, 0, ProvisionComplete(0)); (30, 7, 0, 0, Complete(30)); counted (1, 0, 0, 0, 0); ended 30;
["create"] => [{"seconds":1,"warning":{"summary":"slow"},"provisioners":[{"provisioner":"a","seconds":1}]}] => begins 0; (0, 7, 0, 0, Start); (1, 7, 0, 0, ProvisionStart(0)); (2, 7, 0, 0, ProvisionComplete(0)); (2, 7, 0, 0, Complete(2)); counted (1, 0, 0, 0, 0); (2, 7, 0, 0, WarnNote); ended 2;
["create"] => [{"seconds":1,"warning":{"summary":"slow"},"provisioners":[{"provisioner":"a","seconds":0},{"provisioner":"b","seconds":1,"output":["x","y"],"failed":{"summary":"boom"}},{"provisioner":"c","seconds":9}]}] => begins 0; (0, 7, 0, 0, Start); (1, 7, 0, 0, ProvisionStart(0)); (1, 7, 0, 0, ProvisionComplete(0)); (1, 7, 0, 0, ProvisionStart(1)); (2, 7, 0, 0, ProvisionOutput { prov: 1, line: 0 }); (2, 7, 0, 0, ProvisionOutput { prov: 1, line: 1 }); (2, 7, 0, 0, ProvisionErrored(1)); (2, 7, 0, 0, Errored(2)); counted (0, 0, 0, 1, 0); (2, 7, 0, 0, ErrorNote); ended 2;
["create"] => [{"seconds":0,"provisioners":[{"provisioner":"a","seconds":9,"failed":{"summary":"boom"}},{"provisioner":"b","seconds":86391}]}] => begins 0; (0, 7, 0, 0, Start); (0, 7, 0, 0, ProvisionStart(0)); (9, 7, 0, 0, ProvisionErrored(0)); (9, 7, 0, 0, Errored(9)); counted (0, 0, 0, 1, 0); (9, 7, 0, 0, ErrorNote); ended 9;
["create","delete"] => [{"seconds":1,"provisioners":[{"provisioner":"a","seconds":1,"failed":{"summary":"boom"}}]},{"seconds":9}] => begins 0; (0, 7, 0, 0, Start); (1, 7, 0, 0, ProvisionStart(0)); (2, 7, 0, 0, ProvisionErrored(0)); (2, 7, 0, 0, Errored(2)); counted (0, 0, 0, 1, 0); (2, 7, 0, 0, ErrorNote); ended 2;
["create","delete"] => [{"seconds":1,"provisioners":[{"provisioner":"a","seconds":1}]},{"seconds":2}] => begins 0; (0, 7, 0, 0, Start); (1, 7, 0, 0, ProvisionStart(0)); (2, 7, 0, 0, ProvisionComplete(0)); (2, 7, 0, 0, Complete(2)); counted (1, 0, 0, 0, 0); ended 2; begins 1; (2, 7, 0, 1, Start); (4, 7, 0, 1, Complete(2)); counted (1, 0, 1, 0, 0); ended 4;
["delete"] => [{"seconds":9,"provisioners":[{"provisioner":"local-exec","seconds":2,"output":["bye"],"failed":{"summary":"boom"},"on_failure":"continue"},{"provisioner":"local-exec","seconds":1,"output":["bye"]}]}] => begins 0; (0, 7, 0, 0, Start); (0, 7, 0, 0, ProvisionStart(0)); (2, 7, 0, 0, ProvisionOutput { prov: 0, line: 0 }); (2, 7, 0, 0, ProvisionErrored(0)); (2, 7, 0, 0, ProvisionStart(1)); (3, 7, 0, 0, ProvisionOutput { prov: 1, line: 0 }); (3, 7, 0, 0, ProvisionComplete(1)); (10, 7, 0, 0, Progress(10)); (12, 7, 0, 0, Complete(12)); counted (0, 0, 1, 0, 0); ended 12;
["create"] => [{"seconds":9,"provisioners":[{"provisioner":"local-exec","seconds":2,"output":["bye"],"failed":{"summary":"boom"},"on_failure":"continue"},{"provisioner":"local-exec","seconds":1,"output":["bye"]}]}] => begins 0; (0, 7, 0, 0, Start); (9, 7, 0, 0, ProvisionStart(0)); (10, 7, 0, 0, Progress(10)); (11, 7, 0, 0, ProvisionOutput { prov: 0, line: 0 }); (11, 7, 0, 0, ProvisionErrored(0)); (11, 7, 0, 0, ProvisionStart(1)); (12, 7, 0, 0, ProvisionOutput { prov: 1, line: 0 }); (12, 7, 0, 0, ProvisionComplete(1)); (12, 7, 0, 0, Complete(12)); counted (1, 0, 0, 0, 0); ended 12;
["delete"] => [{"seconds":5,"provisioners":[{"provisioner":"local-exec","seconds":3,"output":["bye"],"failed":{"summary":"boom"}},{"provisioner":"local-exec","seconds":4,"output":["bye"]}]}] => begins 0; (0, 7, 0, 0, Start); (0, 7, 0, 0, ProvisionStart(0)); (3, 7, 0, 0, ProvisionOutput { prov: 0, line: 0 }); (3, 7, 0, 0, ProvisionErrored(0)); (3, 7, 0, 0, Errored(3)); counted (0, 0, 0, 1, 0); (3, 7, 0, 0, ErrorNote); ended 3;
["delete"] => [{"seconds":25,"provisioners":[{"provisioner":"local-exec","seconds":0,"output":["bye"],"on_failure":"continue"},{"provisioner":"local-exec","seconds":15,"output":["bye"]}]}] => begins 0; (0, 7, 0, 0, Start); (0, 7, 0, 0, ProvisionStart(0)); (0, 7, 0, 0, ProvisionOutput { prov: 0, line: 0 }); (0, 7, 0, 0, ProvisionComplete(0)); (0, 7, 0, 0, ProvisionStart(1)); (10, 7, 0, 0, Progress(10)); (15, 7, 0, 0, ProvisionOutput { prov: 1, line: 0 }); (15, 7, 0, 0, ProvisionComplete(1)); (20, 7, 0, 0, Progress(20)); (30, 7, 0, 0, Progress(30)); (40, 7, 0, 0, Complete(40)); counted (0, 0, 1, 0, 0); ended 40;
["create"] => [{"seconds":3,"provisioners":[{"provisioner":"local-exec","seconds":12,"output":[{"after":0,"text":"hi"},{"after":7,"text":"hi"},{"after":12,"text":"hi"},{"after":12,"text":"hi"}]}]}] => begins 0; (0, 7, 0, 0, Start); (3, 7, 0, 0, ProvisionStart(0)); (3, 7, 0, 0, ProvisionOutput { prov: 0, line: 0 }); (10, 7, 0, 0, Progress(10)); (10, 7, 0, 0, ProvisionOutput { prov: 0, line: 1 }); (15, 7, 0, 0, ProvisionOutput { prov: 0, line: 2 }); (15, 7, 0, 0, ProvisionOutput { prov: 0, line: 3 }); (15, 7, 0, 0, ProvisionComplete(0)); (15, 7, 0, 0, Complete(15)); counted (1, 0, 0, 0, 0); ended 15;
["delete"] => [{"seconds":3,"provisioners":[{"provisioner":"local-exec","seconds":12,"output":[{"after":0,"text":"hi"},{"after":7,"text":"hi"},{"after":12,"text":"hi"},{"after":12,"text":"hi"}]}]}] => begins 0; (0, 7, 0, 0, Start); (0, 7, 0, 0, ProvisionStart(0)); (0, 7, 0, 0, ProvisionOutput { prov: 0, line: 0 }); (7, 7, 0, 0, ProvisionOutput { prov: 0, line: 1 }); (10, 7, 0, 0, Progress(10)); (12, 7, 0, 0, ProvisionOutput { prov: 0, line: 2 }); (12, 7, 0, 0, ProvisionOutput { prov: 0, line: 3 }); (12, 7, 0, 0, ProvisionComplete(0)); (15, 7, 0, 0, Complete(15)); counted (0, 0, 1, 0, 0); ended 15;
["create"] => [{"seconds":10,"provisioners":[{"provisioner":"local-exec","seconds":25,"output":[{"after":0,"text":"hi"},{"after":10,"text":"hi"},{"after":25,"text":"hi"},{"after":25,"text":"hi"}]}]}] => begins 0; (0, 7, 0, 0, Start); (10, 7, 0, 0, Progress(10)); (10, 7, 0, 0, ProvisionStart(0)); (10, 7, 0, 0, ProvisionOutput { prov: 0, line: 0 }); (20, 7, 0, 0, Progress(20)); (20, 7, 0, 0, ProvisionOutput { prov: 0, line: 1 }); (30, 7, 0, 0, Progress(30)); (35, 7, 0, 0, ProvisionOutput { prov: 0, line: 2 }); (35, 7, 0, 0, ProvisionOutput { prov: 0, line: 3 }); (35, 7, 0, 0, ProvisionComplete(0)); (35, 7, 0, 0, Complete(35)); counted (1, 0, 0, 0, 0); ended 35;"#;

#[test]
fn worked_changes(rt: HostRuntime) {
    let alloc = rt.alloc();
    let none = leaked(&rt, alloc, Registry::new(alloc));
    rows_hold(&rt, alloc, none, 0, WORKED);
    rows_hold(&rt, alloc, none, 0, PROVISIONED);
}

/// A replacement that begins at 5.
const FROM_5: &str =
    r#"["delete","create"] => [{"seconds":11},{"seconds":2,"warning":{"summary":"slow"}}] => begins 0; (5, 7, 0, 0, Start); (15, 7, 0, 0, Progress(10)); (16, 7, 0, 0, Complete(11)); counted (0, 0, 1, 0, 0); ended 16; begins 1; (16, 7, 0, 1, Start); (18, 7, 0, 1, Complete(2)); counted (1, 0, 1, 0, 0); (18, 7, 0, 1, WarnNote); ended 18;"#;

/// A replacement under an empty script, at the last second at which a change may begin.
const LATE: &str =
    r#"["delete","create"] => no script => begins 0; (1727827200, 7, 0, 0, Start); (1727827200, 7, 0, 0, Complete(0)); counted (0, 0, 1, 0, 0); begins 1; (1727827200, 7, 0, 1, Start); (1727827200, 7, 0, 1, Complete(0)); counted (1, 0, 1, 0, 0);"#;

#[test]
fn between_the_events_of_a_replacement(rt: HostRuntime) {
    let alloc = rt.alloc();
    let none = leaked(&rt, alloc, Registry::new(alloc));
    rows_hold(&rt, alloc, none, 5, FROM_5);
    rows_hold(&rt, alloc, none, LAST_BEGIN, LATE);
}

/// Each row has the actions of a change, the actions of the plan that the script was read for, the
/// steps, and the events. A change goes on after a read that only warns, which no script states for
/// a replacement. Other scripts have more steps than the change, and one skips such a step.
const OF_OTHER_PLANS: &str =
    r#"["delete","create"] => ["read"] => [{"seconds":11,"failed":{"severity":"warning","summary":"no"}}] => begins 0; (0, 7, 0, 0, Start); (10, 7, 0, 0, Progress(10)); (11, 7, 0, 0, WarnNote); ended 11; begins 1; (11, 7, 0, 1, Start); (11, 7, 0, 1, Complete(0)); counted (1, 0, 0, 0, 0);
["create"] => ["delete","create"] => [{"seconds":3},{"skipped":true}] => begins 0; (0, 7, 0, 0, Start); (3, 7, 0, 0, Complete(3)); counted (1, 0, 0, 0, 0); ended 3;
["create"] => ["delete","create"] => [{"skipped":true},{"seconds":5}] => "#;

/// Fails if the change of a row has other events with that script.
fn events_with_other_script(rt: &impl Abort, alloc: Global, row: &str) {
    let (actions, rest) = parted(rt, row);
    let (others, rest) = parted(rt, rest);
    let (steps, wanted) = parted(rt, rest);
    let script = script_of(rt, alloc, plan_of(rt, alloc, others), steps);
    let plan = plan_of(rt, alloc, actions);
    let none = leaked(rt, alloc, Registry::new(alloc));
    events_are(rt, alloc, plan, script, none, 0, wanted);
}

#[test]
fn scripts_of_other_plans(rt: HostRuntime) {
    for row in OF_OTHER_PLANS.lines() {
        events_with_other_script(&rt, rt.alloc(), row);
    }
}

/// Rows under hooks that halt deletes before they start. The event names the first of these hooks.
const BEFORE: &str =
    r#"["delete","create"] => no script => begins 0; (0, 7, 0, 0, Halted { phase: Pre, hook: 1 }); counted (0, 0, 0, 0, 1);
["create","delete"] => no script => begins 0; (0, 7, 0, 0, Start); (0, 7, 0, 0, Complete(0)); counted (1, 0, 0, 0, 0); begins 1; (0, 7, 0, 1, Halted { phase: Pre, hook: 1 }); counted (1, 0, 0, 0, 1);"#;

/// Rows under hooks that halt after a failure, also of a provisioner. A read that only warns has
/// not failed.
const AFTER_A_FAILURE: &str =
    r#"["create"] => [{"seconds":5,"failed":{"summary":"boom"}}] => begins 0; (0, 7, 0, 0, Start); (5, 7, 0, 0, Errored(5)); counted (0, 0, 0, 1, 0); (5, 7, 0, 0, ErrorNote); (5, 7, 0, 0, Halted { phase: PostFailed, hook: 1 }); counted (0, 0, 0, 1, 1); ended 5;
["create"] => [{"seconds":5}] => begins 0; (0, 7, 0, 0, Start); (5, 7, 0, 0, Complete(5)); counted (1, 0, 0, 0, 0); ended 5;
["create"] => [{"seconds":1,"provisioners":[{"provisioner":"a","seconds":2,"output":["x"],"failed":{"summary":"boom"}}]}] => begins 0; (0, 7, 0, 0, Start); (1, 7, 0, 0, ProvisionStart(0)); (3, 7, 0, 0, ProvisionOutput { prov: 0, line: 0 }); (3, 7, 0, 0, ProvisionErrored(0)); (3, 7, 0, 0, Errored(3)); counted (0, 0, 0, 1, 0); (3, 7, 0, 0, ErrorNote); (3, 7, 0, 0, Halted { phase: PostFailed, hook: 1 }); counted (0, 0, 0, 1, 1); ended 3;
["create"] => [{"seconds":1,"provisioners":[{"provisioner":"a","seconds":2,"output":["x"]}]}] => begins 0; (0, 7, 0, 0, Start); (1, 7, 0, 0, ProvisionStart(0)); (3, 7, 0, 0, ProvisionOutput { prov: 0, line: 0 }); (3, 7, 0, 0, ProvisionComplete(0)); (3, 7, 0, 0, Complete(3)); counted (1, 0, 0, 0, 0); ended 3;
["read"] => [{"seconds":1,"failed":{"severity":"warning","summary":"no"}}] => begins 0; (0, 7, 0, 0, Start); (1, 7, 0, 0, WarnNote); ended 1;"#;

/// Rows under hooks that halt after a done step: between the steps of a replacement, after
/// provisioners, and after a read that only warns. They are not asked where a provisioner fails.
const AFTER_A_DONE_STEP: &str =
    r#"["delete","create"] => [{"seconds":1},{"seconds":2}] => begins 0; (0, 7, 0, 0, Start); (1, 7, 0, 0, Complete(1)); counted (0, 0, 1, 0, 0); (1, 7, 0, 0, Halted { phase: PostDone, hook: 1 }); counted (0, 0, 1, 0, 1); ended 1;
["create"] => [{"seconds":1,"provisioners":[{"provisioner":"a","seconds":2,"output":["x"]}]}] => begins 0; (0, 7, 0, 0, Start); (1, 7, 0, 0, ProvisionStart(0)); (3, 7, 0, 0, ProvisionOutput { prov: 0, line: 0 }); (3, 7, 0, 0, ProvisionComplete(0)); (3, 7, 0, 0, Complete(3)); counted (1, 0, 0, 0, 0); (3, 7, 0, 0, Halted { phase: PostDone, hook: 1 }); counted (1, 0, 0, 0, 1); ended 3;
["create"] => [{"seconds":1,"provisioners":[{"provisioner":"a","seconds":2,"output":["x"],"failed":{"summary":"boom"}}]}] => begins 0; (0, 7, 0, 0, Start); (1, 7, 0, 0, ProvisionStart(0)); (3, 7, 0, 0, ProvisionOutput { prov: 0, line: 0 }); (3, 7, 0, 0, ProvisionErrored(0)); (3, 7, 0, 0, Errored(3)); counted (0, 0, 0, 1, 0); (3, 7, 0, 0, ErrorNote); ended 3;
["read"] => [{"seconds":1,"failed":{"severity":"warning","summary":"no"}}] => begins 0; (0, 7, 0, 0, Start); (1, 7, 0, 0, WarnNote); (1, 7, 0, 0, Halted { phase: PostDone, hook: 1 }); counted (0, 0, 0, 0, 1); ended 1;"#;

#[test]
fn hooks_halt_before_and_after_steps(rt: HostRuntime) {
    let alloc = rt.alloc();
    let deletes = Some(StepKind::Delete);
    rows_hold_under(&rt, alloc, Phase::Pre, deletes, BEFORE);
    rows_hold_under(&rt, alloc, Phase::Pre, deletes, lanes::HALTED);
    rows_hold_under(&rt, alloc, Phase::PostFailed, None, AFTER_A_FAILURE);
    rows_hold_under(&rt, alloc, Phase::PostDone, None, AFTER_A_DONE_STEP);
}
