//! Checks what no contract states: closures that callers really write can be stored, and each is
//! called as often as it should be. Rows check that the definitions mean what they should.

ghost use Rattle.std.specs.Prelude.{◌≡◌, ◌∷◌, []};

mod asking;
mod closures;
mod matching;

use apply_hooks::{
    Asked, FnHook, Hook, HookCall, HookClosure, HookError, MAX_HOOKS, Phase, Registry, Rule, Rules,
    Verdict,
};
use apply_model::{StepKind, Text};
use std::alloc::Global;
use std::fmt::Debug;
use std::process::Abort;
use std::sync::Arc;
use std::sync::atomic::{AtomicU64, Ordering};
use std::thread;
use std::thread::Threads;

/// The texts before and after the first separator of a row.
fn parted<'a>(rt: &impl Abort, row: &'a str, separator: &str) -> (&'a str, &'a str) {
    row.split_once(separator).expect(rt, row)
}

/// The phase of that name; none for `any`.
fn phase_of(rt: &impl Abort, name: &str) -> Option<Phase> {
    match name {
        "Pre" => Some(Phase::Pre),
        "PostDone" => Some(Phase::PostDone),
        "PostFailed" => Some(Phase::PostFailed),
        _ => {
            holds(rt, name, name == "any");
            None
        }
    }
}

/// The kind of that name; none for `any`.
fn kind_of(rt: &impl Abort, name: &str) -> Option<StepKind> {
    match name {
        "Create" => Some(StepKind::Create),
        "Update" => Some(StepKind::Update),
        "Delete" => Some(StepKind::Delete),
        "Read" => Some(StepKind::Read),
        _ => {
            holds(rt, name, name == "any");
            None
        }
    }
}

/// The call with the phase, the kind and the address of the row.
fn call_of<'a>(rt: &impl Abort, row: &'a str) -> HookCall<'a> {
    let (phase, rest) = parted(rt, row, " ");
    let (kind, address) = parted(rt, rest, " ");
    HookCall {
        phase: phase_of(rt, phase).expect(rt, "a phase"),
        kind: kind_of(rt, kind).expect(rt, "a kind"),
        address,
    }
}

/// The value, never dropped: each place that drops a value makes a proof longer.
fn leaked<'a, T: Drop + 'a>(rt: &impl Abort, alloc: Global, value: T) -> &'a mut T {
    Box::leak(Box::new(alloc, value).expect(rt, "memory"))
}

/// The text that `Debug` prints for the value.
fn printed(rt: &impl Abort, alloc: Global, value: &impl Debug) -> &'static str {
    let text = format!(in alloc; "{value:?}").expect(rt, "memory");
    leaked(rt, alloc, text).as_str()
}

/// Fails if the condition is false. A call costs a proof less than an assertion.
fn holds(rt: &impl Abort, case: &str, is_so: bool) {
    assert!(rt; is_so, "{case}");
}

/// Fails if the texts differ.
fn text_is(rt: &impl Abort, case: &str, actual: &str, wanted: &str) {
    assert!(rt; actual == wanted, "{case}: {actual}");
}

/// Fails if the number differs from the text.
fn number_is(rt: &impl Abort, alloc: Global, case: &str, actual: u64, wanted: &str) {
    text_is(rt, case, printed(rt, alloc, &actual), wanted);
}

/// Fails if the registry gives another answer to the call of the row.
fn is_asked(rt: &impl Abort, alloc: Global, registry: &Registry, row: &str) {
    let (call, wanted) = parted(rt, row, " => ");
    let asked = registry.ask(&call_of(rt, call));
    text_is(rt, row, printed(rt, alloc, &asked), wanted);
}

/// Fails if the hook gives another verdict on the call of the row.
fn is_decided(rt: &impl Abort, alloc: Global, hook: &impl Hook, row: &str) {
    let (call, wanted) = parted(rt, row, " => ");
    let verdict = hook.decide(&call_of(rt, call));
    text_is(rt, row, printed(rt, alloc, &verdict), wanted);
}

/// One rule that halts.
fn halting(
    rt: &impl Abort,
    alloc: Global,
    phase: Option<Phase>,
    kind: Option<StepKind>,
    beginning: &str,
) -> Rules
    ensures { result ≡ record {
      phase = phase;
      kind = kind;
      address_begins = beginning.now;
      verdict = Verdict.Halt;
    } ∷ [] }
{
    Rules::halting(alloc, phase, kind, beginning).expect(rt, "memory")
}

/// A count that closures may share.
fn count(rt: &impl Abort, alloc: Global) -> &'static Arc<AtomicU64> {
    let count = Arc::new(alloc, AtomicU64::new(0)).expect(rt, "memory");
    &*leaked(rt, alloc, count)
}

/// Another owner of the count.
fn shared(rt: &impl Abort, count: &Arc<AtomicU64>) -> Arc<AtomicU64> {
    Arc::try_clone(count).expect(rt, "memory")
}

/// Fails if the error has another text.
fn error_text_is(rt: &impl Abort, alloc: Global, error: HookError, wanted: &str) {
    let text = error.to_string(alloc).expect(rt, "memory");
    text_is(rt, wanted, leaked(rt, alloc, text).as_str(), wanted);
}

/// The texts of errors.
#[test]
fn refusals_have_their_texts(rt: HostRuntime) {
    error_text_is(&rt, rt.alloc(), HookError::Full, "more than 32 hooks");
    error_text_is(&rt, rt.alloc(), HookError::Memory, "out of memory");
}
