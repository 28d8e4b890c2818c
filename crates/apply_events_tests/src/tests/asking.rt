//! How often hooks are asked.

use super::*;

/// Fails if the closure was asked another number of times so far.
fn asked_is(rt: &impl Abort, alloc: Global, calls: &AtomicU64, asked: &str) {
    let actual = printed(rt, alloc, &calls.load(Ordering::SeqCst));
    text_is(rt, asked, actual, asked);
}

/// Fails if the closure was asked another number of times so far, before the runner is read or
/// after.
fn asked_are(rt: &impl Abort, alloc: Global, calls: &AtomicU64, runner: &Runner<'_>, asked: &str) {
    asked_is(rt, alloc, calls, asked);
    let _begins = runner.begins();
    let _ended_at = runner.ended_at();
    asked_is(rt, alloc, calls, asked);
}

/// How often the closure is asked up to each event of a replacement with one progress and one
/// warning. The numbers stand for: before any event, the first start, the progress, the first
/// completion, the second start, the second completion and the warning. The last two stand for the
/// time after all events.
const ASKED: &str = "0
1
1
2
3
3
4
4
4";

/// Fails if the closure was asked another number of times up to some event.
fn asked_along(
    rt: &impl Abort,
    alloc: Global,
    plan: &Plan,
    script: &Script,
    registry: &Registry,
    calls: &AtomicU64,
) {
    holds(rt, "one change", plan.len() == 1);
    let mut runner = Runner::start(plan, script, registry, 0, 0, 0);
    for asked in ASKED.lines() {
        asked_are(rt, alloc, calls, &runner, asked);
        let _event = runner.next();
    }
}

/// How often the closure is asked in a lane. Before any event it is asked four times for the
/// schedule, and once for the first event. Then it is asked one event ahead.
const ASKED_IN_A_LANE: &str = "5
5
6
7
7
8
8
8
8";

/// Fails if the closure was asked another number of times up to some event of a lane.
fn asked_in_a_lane(
    rt: &impl Abort,
    alloc: Global,
    plan: &Plan,
    script: &Script,
    registry: &Registry,
    calls: &AtomicU64,
) {
    let lanes = Lanes::start(alloc, plan, script, registry, 1);
    let mut lanes = lanes.ok().expect(rt, "memory");
    for asked in ASKED_IN_A_LANE.lines() {
        asked_is(rt, alloc, calls, asked);
        let _event = lanes.next();
    }
}

/// A change with each phase of each step, by a runner and in a lane.
fn asked_of_a_replacement(rt: &impl Abort, alloc: Global, registry: &Registry, calls: &AtomicU64) {
    let plan = plan_of(rt, alloc, REPLACEMENT);
    let script = script_of(rt, alloc, plan, ELEVEN_AND_TWO);
    asked_along(rt, alloc, plan, script, registry, calls);
    calls.store(0, Ordering::SeqCst);
    asked_in_a_lane(rt, alloc, plan, script, registry, calls);
    calls.store(0, Ordering::SeqCst);
}

/// A change whose first step is skipped.
fn asked_of_a_skipped_step(rt: &impl Abort, alloc: Global, registry: &Registry, calls: &AtomicU64) {
    let plan = plan_of(rt, alloc, REPLACEMENT);
    let script = script_of(rt, alloc, plan, r#"[{"skipped":true},{"seconds":5}]"#);
    events_are(rt, alloc, plan, script, registry, 0, "");
    let given = lanes::reported(rt, alloc, plan, script, registry, 2);
    text_is(rt, "in lanes", given, "");
    asked_is(rt, alloc, calls, "0");
}

/// A stored closure is asked once for each phase of each step. Before the step the call for its
/// first event asks, and after the step the call for the last event before a possible halt. Lanes
/// ask once more when they start. Nothing asks about a skipped step.
#[test]
fn hooks_are_asked_once_for_each_phase(rt: HostRuntime) {
    let alloc = rt.alloc();
    let calls = Arc::new(alloc, AtomicU64::new(0)).expect(&rt, "memory");
    let counted = Arc::try_clone(&calls).expect(&rt, "memory");
    let mut registry = Registry::new(alloc);
    let answer: HookClosure = Box::new(alloc, move |_call: &HookCall<'_>| {
        counted.fetch_add(1, Ordering::SeqCst);
        Verdict::Continue
    })
    .expect(&rt, "memory");
    add_hook(&rt, &mut registry, Rules::new(alloc), answer);
    asked_of_a_replacement(&rt, alloc, &registry, &calls);
    asked_of_a_skipped_step(&rt, alloc, &registry, &calls);
}
