//! Registries: how full they are, which hooks they call, and that threads share them.

ghost use Rattle.std.specs.Prelude.{◌≡◌};

use super::*;

/// Rules for a hook, and for its closure: none, or one rule that halts steps of that kind in that
/// phase.
fn rules_twice(
    rt: &impl Abort,
    alloc: Global,
    is_quiet: bool,
    phase: Option<Phase>,
    kind: Option<StepKind>,
) -> (Rules, Rules)
    ensures { result.0 ≡ result.1 }
{
    if is_quiet {
        (Rules::new(alloc), Rules::new(alloc))
    } else {
        let rules = halting(rt, alloc, phase, kind, "");
        let own = halting(rt, alloc, phase, kind, "");
        (rules, own)
    }
}

/// Fails if the registry refuses a hook though it has room, or takes a hook though it is full.
/// Fails too if the error or the returned hook is wrong.
pub(super) fn is_added_or_comes_back(
    rt: &impl Abort,
    alloc: Global,
    has_room: bool,
    added: Result<(), (HookError, FnHook)>,
) {
    holds(rt, "added where there is room", added.is_ok() == has_room);
    if let Err((error, hook)) = added {
        holds(rt, "it is full", error == HookError::Full);
        let hook = leaked(rt, alloc, hook);
        is_decided(rt, alloc, hook, "Pre Create null_resource.a => Halt");
    }
}

/// The call with which the threads ask.
fn create<'a>() -> HookCall<'a> {
    HookCall {
        phase: Phase::Pre,
        kind: StepKind::Create,
        address: "null_resource.a",
    }
}

/// Fails if one of so many threads got another answer than a halt by the first hook.
fn all_are_halted(rt: &impl Abort, all: &[Asked], threads: usize) {
    holds(rt, "an answer for each", all.len() == threads);
    for asked in all {
        holds(rt, "the first hook halts", *asked == Asked::HaltedBy(0));
    }
}

/// Asks the registry in so many threads. Fails if one of them gets another answer than a halt by
/// the first hook.
fn threads_ask<R: Threads + Sync + Abort>(
    rt: &R,
    alloc: Global,
    registry: &Registry,
    threads: usize,
) {
    let all = thread::map_indices(
        rt,
        alloc,
        threads,
        &|_number: usize| { registry.ask(&create()) },
    );
    all_are_halted(rt, &all.expect(rt, "memory"), threads);
}

/// Fails if the registry differs from the row: in its number of hooks, in the calls so far, or in
/// the answer to the call of the row.
fn is_so(rt: &impl Abort, alloc: Global, registry: &Registry, calls: &AtomicU64, row: &str) {
    let (asked, wanted) = parted(rt, row, " => ");
    match asked {
        "hooks" => number_is(rt, alloc, row, registry.len() as u64, wanted),
        "calls" => number_is(rt, alloc, row, calls.load(Ordering::SeqCst), wanted),
        _ => is_asked(rt, alloc, registry, row),
    }
}

/// Fails if a row of the table does not hold.
pub(super) fn rows_are_so(
    rt: &impl Abort,
    alloc: Global,
    registry: &Registry,
    calls: &AtomicU64,
    table: &str,
) {
    for row in table.lines() {
        is_so(rt, alloc, registry, calls, row);
    }
}

/// Fails if a row of the table does not hold for a registry of so many hooks. The first `quiet`
/// hooks halt nothing, and the others halt steps of that kind in that phase. A call of the first
/// hook counts 1, of the second 1,000, of the third 1,000,000. There is room for 32 hooks. So many
/// threads ask before the table is read.
fn are_so<R: Threads + Sync + Abort>(
    rt: &R,
    alloc: Global,
    hooks: u32,
    quiet: u32,
    phase: Option<Phase>,
    kind: Option<StepKind>,
    threads: usize,
    table: &str,
) {
    let calls = count(rt, alloc);
    let registry = leaked(rt, alloc, Registry::new(alloc));
    for number in 0..hooks {
        holds(rt, "hooks", registry.len() == number as usize);
        let counted = shared(rt, calls);
        let weight = 1000_u64.wrapping_pow(number);
        let (rules, own) = rules_twice(rt, alloc, number < quiet, phase, kind);
        let answer: HookClosure = Box::new(alloc, move |call: &HookCall<'_>| {
            counted.fetch_add(weight, Ordering::SeqCst);
            own.decide(call)
        })
        .expect(rt, "memory");
        let added = registry.add(FnHook::new(rules, answer));
        is_added_or_comes_back(rt, alloc, (number as usize) < MAX_HOOKS, added);
    }
    threads_ask(rt, alloc, registry, threads);
    rows_are_so(rt, alloc, registry, calls, table);
}

/// A registry whose second and third hooks halt deletes before they start. 1001 calls mean that the
/// first two hooks were called once, and the third never.
const SECOND_HALTS: &str = "hooks => 3
Pre Delete null_resource.a => HaltedBy(1)
calls => 1001
Pre Create null_resource.a => Go";

/// A registry that decided by the rules alone would call nothing. The second hook halts, so the
/// third is not called.
#[test]
fn hooks_are_called_up_to_the_first_that_halts(rt: HostRuntime) {
    let kind = Some(StepKind::Delete);
    are_so(
        &rt,
        rt.alloc(),
        3,
        1,
        Some(Phase::Pre),
        kind,
        0,
        SECOND_HALTS,
    );
}

/// A registry that could not take a 33rd hook, which halts all.
const FULL: &str = "hooks => 32
Pre Create null_resource.a => Go";

#[test]
fn the_33rd_hook_comes_back(rt: HostRuntime) {
    are_so(&rt, rt.alloc(), 33, 32, None, None, 0, FULL);
}

/// A registry of one hook, which halts creates. Each thread asks it once.
const ASKED_BY_THREADS: &str = "calls => 8";

#[test]
fn threads_ask_one_registry(rt: HostRuntime) {
    let kind = Some(StepKind::Create);
    are_so(&rt, rt.alloc(), 1, 0, None, kind, 8, ASKED_BY_THREADS);
}
