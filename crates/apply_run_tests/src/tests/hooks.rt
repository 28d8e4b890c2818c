//! Hooks that halt steps: whole streams, the report of the run, and which steps pass the gate.

ghost use Rattle.std.specs.Prelude.{◌≡◌};
ghost use Rattle.apply_hooks.specs.HookCall.{call_of};
ghost use Rattle.apply_hooks.specs.HookClosure.{AnswersAs};
ghost use Rattle.apply_hooks.specs.Rules.{verdict_of};
ghost use Rattle.apply_run_tests.specs.Halting.{halting};

use super::reports::runs_so;
use super::watching::passes_of;
use super::*;
use apply_hooks::{FnHook, HookCall, HookClosure, Phase, Rules, Verdict};
use apply_plan::StepKind;

/// A replacement that destroys first, and its stream where the second of three hooks is the first
/// to halt it.
const HALTED_REPLACEMENT: &str =
    r#"{"format_version":"1.2","terraform_version":"1.9.0","resource_changes":[{"address":"null_resource.a","mode":"managed","type":"null_resource","name":"a","change":{"actions":["delete","create"]}}]}
no script
{"@level":"info","@message":"Terraform 1.9.0","@module":"terraform.ui","@timestamp":"1970-01-01T00:00:00Z","terraform":"1.9.0","type":"version","ui":"1.0"}
{"@level":"error","@message":"Error: execution halted","@module":"terraform.ui","@timestamp":"1970-01-01T00:00:00Z","diagnostic":{"address":"null_resource.a","detail":"Hook 1 answered Halt before delete.","severity":"error","summary":"execution halted"},"type":"diagnostic"}
{"@level":"info","@message":"Apply complete! Resources: 0 added, 0 changed, 0 destroyed.","@module":"terraform.ui","@timestamp":"1970-01-01T00:00:00Z","changes":{"add":0,"change":0,"operation":"apply","remove":0},"type":"change_summary"}
"#;

/// A create that fails after 5 seconds, and its stream where a hook halts what has failed.
const HALTED_CREATE: &str =
    r#"{"format_version":"1.2","terraform_version":"1.9.0","resource_changes":[{"address":"null_resource.a","mode":"managed","type":"null_resource","name":"a","change":{"actions":["create"]}}]}
{"changes":[{"address":"null_resource.a","steps":[{"seconds":5,"failed":{"summary":"boom"}}]}]}
{"@level":"info","@message":"Terraform 1.9.0","@module":"terraform.ui","@timestamp":"1970-01-01T00:00:00Z","terraform":"1.9.0","type":"version","ui":"1.0"}
{"@level":"info","@message":"null_resource.a: Creating...","@module":"terraform.ui","@timestamp":"1970-01-01T00:00:00Z","hook":{"action":"create","resource":{"addr":"null_resource.a","implied_provider":"null","module":"","resource":"null_resource.a","resource_key":null,"resource_name":"a","resource_type":"null_resource"}},"type":"apply_start"}
{"@level":"info","@message":"null_resource.a: Creation errored after 5s","@module":"terraform.ui","@timestamp":"1970-01-01T00:00:05Z","hook":{"action":"create","elapsed_seconds":5,"resource":{"addr":"null_resource.a","implied_provider":"null","module":"","resource":"null_resource.a","resource_key":null,"resource_name":"a","resource_type":"null_resource"}},"type":"apply_errored"}
{"@level":"error","@message":"Error: boom","@module":"terraform.ui","@timestamp":"1970-01-01T00:00:05Z","diagnostic":{"address":"null_resource.a","detail":"","severity":"error","summary":"boom"},"type":"diagnostic"}
{"@level":"error","@message":"Error: execution halted","@module":"terraform.ui","@timestamp":"1970-01-01T00:00:05Z","diagnostic":{"address":"null_resource.a","detail":"Hook 0 answered Halt after failed create.","severity":"error","summary":"execution halted"},"type":"diagnostic"}
{"@level":"info","@message":"Apply complete! Resources: 0 added, 0 changed, 0 destroyed.","@module":"terraform.ui","@timestamp":"1970-01-01T00:00:05Z","changes":{"add":0,"change":0,"operation":"apply","remove":0},"type":"change_summary"}
"#;

/// Runs under hooks: so many without rules, then so many that halt steps of that kind in that
/// phase.
#[derive(Drop)]
struct Case {
    quiet: u8,
    halting: u8,
    phase: Phase,
    kind: Option<StepKind>,
    run: &'static str,
    counts: Counts,
    taken: u64,
    passes: u64,
}

/// A list of one rule, which halts steps of that kind in that phase, or of each kind.
fn halting(rt: &impl Abort, alloc: Global, phase: Phase, kind: Option<StepKind>) -> Rules
    ensures { result ≡ halting phase kind }
{
    Rules::halting(alloc, Some(phase), kind, "").expect(rt, "memory")
}

/// The answer of a hook's closure with that rule.
fn halts(call: &HookCall<'_>, phase: Phase, kind: Option<StepKind>) -> Verdict
    ensures { result ≡ verdict_of (halting phase kind) (call_of call.now) }
{
    let of_kind = match kind {
        Some(kind) => call.kind == kind,
        None => true,
    };
    if call.phase == phase && of_kind {
        Verdict::Halt
    } else {
        Verdict::Continue
    }
}

/// Adds a hook with that closure, which answers as the rules do.
fn add_hook(rt: &impl Abort, registry: &mut Registry, rules: Rules, answer: HookClosure)
    requires { AnswersAs (pre answer) (post answer) rules }
{
    let added = registry.add(FnHook::new(rules, answer));
    holds(rt, "a hook was added", added.is_ok());
}

/// Fails if one worker writes another stream of the run under the hooks, or gives another report,
/// or if other steps pass the gate.
fn ends_so<R: Threads + Wait + Sync + Abort>(
    rt: &R,
    alloc: Global,
    registry: &Registry,
    case: &Case,
) {
    runs_so(rt, alloc, registry, case.run, case.counts, case.taken);
    number_is(rt, "passes", passes_of(rt, alloc, registry), case.passes);
}

/// Runs the test with the hooks of the case.
fn halts_so<R: Threads + Wait + Sync + Abort>(rt: &R, alloc: Global, case: &Case) {
    let mut registry = Registry::new(alloc);
    let (phase, kind) = (case.phase, case.kind);
    for _ in 0..case.quiet {
        let answer: HookClosure = Box::new(alloc, |_call: &HookCall<'_>| Verdict::Continue).expect(
            rt, "memory",
        );
        add_hook(rt, &mut registry, Rules::new(alloc), answer);
    }
    for _ in 0..case.halting {
        let rules = halting(rt, alloc, phase, kind);
        let answer: HookClosure = Box::new(alloc, move |call: &HookCall<'_>| {
            halts(call, phase, kind)
        })
        .expect(rt, "memory");
        add_hook(rt, &mut registry, rules, answer);
    }
    ends_so(rt, alloc, &registry, case);
}

/// A hook without rules, and after it so many that halt each step of the kind before it begins, or
/// each where none is given: the halt of a replacement's first step is the only event.
fn replacement_is_halted<R: Threads + Wait + Sync + Abort>(
    rt: &R,
    alloc: Global,
    halting: u8,
    kind: Option<StepKind>,
) {
    let case = Case {
        quiet: 1,
        halting,
        phase: Phase::Pre,
        kind,
        run: HALTED_REPLACEMENT,
        counts: counts(0, 0, 0, 0, 1),
        taken: 1,
        passes: 0x13,
    };
    halts_so(rt, alloc, &case);
}

#[test]
fn each_delete_is_halted(rt: HostRuntime) {
    replacement_is_halted(&rt, rt.alloc(), 2, Some(StepKind::Delete));
}

#[test]
fn each_step_is_halted(rt: HostRuntime) {
    replacement_is_halted(&rt, rt.alloc(), 1, None);
}

/// A step passes the gate before a hook halts it, and the next step of that change never does. A
/// create goes on.
#[test]
fn halted_steps_pass_the_gate(rt: HostRuntime) {
    let case = Case {
        quiet: 0,
        halting: 1,
        phase: Phase::Pre,
        kind: Some(StepKind::Delete),
        run: ONE_CREATE,
        counts: counts(1, 0, 0, 0, 0),
        taken: 2,
        passes: 0x13,
    };
    halts_so(&rt, rt.alloc(), &case);
}

/// A hook halts what has failed: the start, the failure with its diagnostic, and the halt. Where
/// nothing fails, all steps pass the gate.
#[test]
fn hooks_halt_what_has_failed(rt: HostRuntime) {
    let case = Case {
        quiet: 0,
        halting: 1,
        phase: Phase::PostFailed,
        kind: None,
        run: HALTED_CREATE,
        counts: counts(0, 0, 0, 1, 1),
        taken: 4,
        passes: 0x123,
    };
    halts_so(&rt, rt.alloc(), &case);
}
