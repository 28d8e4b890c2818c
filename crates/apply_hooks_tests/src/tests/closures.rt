//! The closures of callers. Each meets the condition of `FnHook::new` with no proof of its own.

use super::asking::{is_added_or_comes_back, rows_are_so};
use super::*;

/// Fails if the hook gives another answer to the call of the row, or if the count differs
/// afterwards.
fn is_counted(rt: &impl Abort, alloc: Global, hook: &FnHook, calls: &AtomicU64, row: &str) {
    let (row, so_far) = parted(rt, row, "; ");
    is_decided(rt, alloc, hook, row);
    number_is(rt, alloc, row, calls.load(Ordering::SeqCst), so_far);
}

/// Fails if the hook gives another answer to a call of the table, or if the count differs
/// afterwards. Fails too if a registry with only that hook gives another answer to the last call.
fn answers_so(
    rt: &impl Abort,
    alloc: Global,
    hook: FnHook,
    calls: &AtomicU64,
    table: &str,
    last: &str,
) {
    for row in table.lines() {
        is_counted(rt, alloc, &hook, calls, row);
    }
    let registry = leaked(rt, alloc, Registry::new(alloc));
    is_added_or_comes_back(rt, alloc, true, registry.add(hook));
    holds(rt, "one hook", registry.len() == 1);
    is_asked(rt, alloc, registry, last);
}

/// Calls on a hook that halts deletes in `a` before they start, and counts nothing.
const ONE_RULE: &str = "Pre Delete ab => Halt; 0
PostDone Delete ab => Continue; 0
Pre Delete b => Continue; 0";

#[test]
fn one_rule(rt: HostRuntime) {
    let alloc = rt.alloc();
    let calls = count(&rt, alloc);
    let rules = halting(&rt, alloc, Some(Phase::Pre), Some(StepKind::Delete), "a");
    let answer: HookClosure = Box::new(alloc, |call: &HookCall<'_>| {
        if call.phase == Phase::Pre && call.kind == StepKind::Delete && call.address_begins("a") {
            Verdict::Halt
        } else {
            Verdict::Continue
        }
    })
    .expect(&rt, "memory");
    let hook = FnHook::new(rules, answer);
    answers_so(
        &rt,
        alloc,
        hook,
        calls,
        ONE_RULE,
        "Pre Delete ab => HaltedBy(0)",
    );
}

/// What three hooks halt before it starts: all steps of a kind, or all with such a beginning of
/// their address.
const HALTED: &str = "Read 
any module.a
Create ";

/// Calls on a registry of those hooks.
const CALLS: &str = "Pre Read module.a.b.c => HaltedBy(0)
Pre Create module.a.b.c => HaltedBy(1)
Pre Create b.c => HaltedBy(2)
Pre Delete b.c => Go
PostDone Read module.a.b.c => Go";

/// The test reads kinds and beginnings while it runs, like options of a command line.
#[test]
fn rules_of_values_that_are_known_when_the_program_runs(rt: HostRuntime) {
    let alloc = rt.alloc();
    let registry = leaked(&rt, alloc, Registry::new(alloc));
    for row in HALTED.lines() {
        let (kind, beginning) = parted(&rt, row, " ");
        let kind = kind_of(&rt, kind);
        let prefix = Text::new(alloc, beginning).expect(&rt, "memory");
        let rules = halting(&rt, alloc, Some(Phase::Pre), kind, prefix.as_str());
        let answer: HookClosure = Box::new(alloc, move |call: &HookCall<'_>| {
            let is_of_kind = match kind {
                Some(kind) => call.kind == kind,
                None => true,
            };
            if call.phase == Phase::Pre && is_of_kind && call.address_begins(prefix.as_str()) {
                Verdict::Halt
            } else {
                Verdict::Continue
            }
        })
        .expect(&rt, "memory");
        let added = registry.add(FnHook::new(rules, answer));
        is_added_or_comes_back(&rt, alloc, true, added);
    }
    rows_are_so(&rt, alloc, registry, count(&rt, alloc), CALLS);
}

/// Calls on a hook that halts after a failure. A row has the verdict, and the number of calls of
/// its closure afterwards.
const COUNTED: &str = "Pre Update a.b => Continue; 1
PostFailed Update a.b => Halt; 2
PostDone Update a.b => Continue; 3";

#[test]
fn a_closure_that_counts_its_calls(rt: HostRuntime) {
    let alloc = rt.alloc();
    let calls = count(&rt, alloc);
    let counted = shared(&rt, calls);
    let rules = halting(&rt, alloc, Some(Phase::PostFailed), None, "");
    let answer: HookClosure = Box::new(alloc, move |call: &HookCall<'_>| {
        counted.fetch_add(1, Ordering::SeqCst);
        if call.phase == Phase::PostFailed {
            Verdict::Halt
        } else {
            Verdict::Continue
        }
    })
    .expect(&rt, "memory");
    let hook = FnHook::new(rules, answer);
    answers_so(
        &rt,
        alloc,
        hook,
        calls,
        COUNTED,
        "PostFailed Update a.b => HaltedBy(0)",
    );
}
