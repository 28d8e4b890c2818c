//! Checks what no contract states. Rows worked out by hand check that the definitions mean what
//! they should, and counters check how often a stored closure is asked.

ghost use Rattle.std.specs.Prelude.{◌≡◌, ◌<◌, true};
ghost use Rattle.apply_hooks.specs.HookCall.{call_of};
ghost use Rattle.apply_hooks.specs.HookClosure.{AnswersAs};
ghost use Rattle.apply_hooks.specs.Rules.{verdict_of};
ghost use Rattle.apply_events_tests.specs.Halting.{halting};

mod asking;
mod changes;
mod fitting;
mod lanes;
mod outputs;

use apply_events::{Counts, Event, LATEST, Lanes, Runner, What, fits, is_of_plan};
use apply_hooks::{FnHook, HookCall, HookClosure, Phase, Registry, Rules, Verdict};
use apply_plan::{Plan, Script, StepKind, read_plan, read_script};
use std::alloc::Global;
use std::fmt::Debug;
use std::process::Abort;
use std::sync::Arc;
use std::sync::atomic::{AtomicU64, Ordering};

/// A plan of one change, `null_resource.a`, with the actions in the place of `CELL`.
const PLAN: &str =
    r#"{"format_version":"1.2","resource_changes":[{"address":"null_resource.a","mode":"managed","type":"null_resource","name":"a","change":{"actions":CELL}}]}"#;

/// A script of that change, with the steps in the place of `CELL`.
const SCRIPT: &str = r#"{"changes":[{"address":"null_resource.a","steps":CELL}]}"#;

/// Stands in a table for a row without a script.
const NO_SCRIPT: &str = "no script";

/// The actions of a create.
const CREATE: &str = r#"["create"]"#;

/// The actions of a replacement that destroys first.
const REPLACEMENT: &str = r#"["delete","create"]"#;

/// The first step takes 11 seconds, so it reports progress once. The second step has a warning.
const ELEVEN_AND_TWO: &str = r#"[{"seconds":11},{"seconds":2,"warning":{"summary":"slow"}}]"#;

/// The last second at which a change may begin.
const LAST_BEGIN: u64 = LATEST - 172_800;

/// Fails if the condition is false. A call costs a proof less than an assertion.
fn holds(rt: &impl Abort, case: &str, is_so: bool)
    ensures { is_so ≡ true }
{
    assert!(rt; is_so, "{case}");
}

/// Fails if the texts differ.
fn text_is(rt: &impl Abort, case: &str, actual: &str, wanted: &str) {
    assert!(rt; actual == wanted, "{case}: {actual}");
}

/// The value, never dropped: each place that drops a value makes a proof longer.
fn leaked<'a, T: Drop + 'a>(rt: &impl Abort, alloc: Global, value: T) -> &'a T {
    let leaked = Box::new(alloc, value).expect(rt, "memory");
    &*Box::leak(leaked)
}

/// The text that `Debug` prints for the value.
fn printed(rt: &impl Abort, alloc: Global, value: &impl Debug) -> &'static str {
    let text = format!(in alloc; "{value:?}").expect(rt, "memory");
    leaked(rt, alloc, text).as_str()
}

/// Adds a piece to a text.
fn push(rt: &impl Abort, text: &mut String, piece: &str) {
    text.push_str(piece).expect(rt, "memory");
}

/// Adds a name, which may be empty, and the text that `Debug` prints for the value.
fn push_value(rt: &impl Abort, text: &mut String, name: &str, value: &impl Debug) {
    write!(text, "{name}{value:?}; ").expect(rt, "memory");
}

/// The texts before and after the arrow of a row.
fn parted<'a>(rt: &impl Abort, row: &'a str) -> (&'a str, &'a str) {
    row.split_once(" => ").expect(rt, "a mark")
}

/// The text with the cell in place of the placeholder.
fn put(rt: &impl Abort, alloc: Global, text: &str, placeholder: &str, cell: &str) -> &'static str {
    let text = text.replace(alloc, placeholder, cell).expect(rt, "memory");
    leaked(rt, alloc, text).as_str()
}

/// The plan that the text contains.
fn plan_in(rt: &impl Abort, alloc: Global, text: &str) -> &'static Plan {
    let plan = read_plan(alloc, text.as_bytes());
    leaked(rt, alloc, plan.ok().expect(rt, "a plan"))
}

/// The script that the text contains.
fn script_in(rt: &impl Abort, alloc: Global, plan: &Plan, text: &str) -> &'static Script {
    let script = read_script(alloc, text.as_bytes(), plan);
    leaked(rt, alloc, script.ok().expect(rt, "a script"))
}

/// The plan with those actions.
fn plan_of(rt: &impl Abort, alloc: Global, actions: &str) -> &'static Plan {
    plan_in(rt, alloc, put(rt, alloc, PLAN, "CELL", actions))
}

/// The script with those steps, or the empty script.
fn script_of(rt: &impl Abort, alloc: Global, plan: &Plan, steps: &str) -> &'static Script {
    if steps == NO_SCRIPT {
        return leaked(rt, alloc, Script::empty());
    }
    script_in(rt, alloc, plan, put(rt, alloc, SCRIPT, "CELL", steps))
}

/// Adds the second, the worker or the lane, the change with its step, and the kind of the event.
fn push_event(rt: &impl Abort, text: &mut String, event: &Event) {
    let described = (event.at, event.worker, event.change, event.step, event.what);
    push_value(rt, text, "", &described);
}

/// Adds the end of the change so far, if it has changed, and the step that begins next, if one
/// does. Returns that end.
fn push_stand(rt: &impl Abort, text: &mut String, runner: &Runner<'_>, before: u64) -> u64 {
    let ended = runner.ended_at();
    if ended != before {
        push_value(rt, text, "ended ", &ended);
    }
    if let Some(step) = runner.begins() {
        push_value(rt, text, "begins ", &step);
    }
    ended
}

/// Fails where a number is not small.
fn is_small(rt: &impl Abort, number: u64)
    ensures { number < 9 }
{
    holds(rt, "a small number", number < 9);
}

/// Counts one event more. The totals of a test are small.
fn count(rt: &impl Abort, counted: &mut Counts, plan: &Plan, script: &Script, event: &Event) {
    holds(rt, "an event that fits", fits(plan, script, event));
    is_small(rt, counted.added);
    is_small(rt, counted.changed);
    is_small(rt, counted.removed);
    is_small(rt, counted.failed);
    is_small(rt, counted.halted);
    counted.count(plan, event);
}

/// Adds the totals so far, if they have changed: added, changed, removed, failed and halted.
fn push_counts(rt: &impl Abort, text: &mut String, counted: &Counts, before: &Counts) {
    if *counted != *before {
        let Counts {
            added,
            changed,
            removed,
            failed,
            halted,
        } = *counted;
        let described = (added, changed, removed, failed, halted);
        push_value(rt, text, "counted ", &described);
    }
}

/// All events of a change that begins at that second, with the state of the runner and the totals
/// between them where they change.
fn described(
    rt: &impl Abort,
    alloc: Global,
    plan: &Plan,
    script: &Script,
    mut runner: Runner<'_>,
    begin: u64,
) -> &'static str {
    let mut text = String::new(alloc);
    let mut counted = Counts::new();
    let mut ended = push_stand(rt, &mut text, &runner, begin);
    while let Some(event) = runner.next() {
        let before = counted;
        push_event(rt, &mut text, &event);
        count(rt, &mut counted, plan, script, &event);
        push_counts(rt, &mut text, &counted, &before);
        ended = push_stand(rt, &mut text, &runner, ended);
    }
    holds(rt, "nothing behind the last event", runner.next().is_none());
    leaked(rt, alloc, text).as_str()
}

/// Fails if the change of the plan has other events. Worker 7 begins it at that second.
fn events_are(
    rt: &impl Abort,
    alloc: Global,
    plan: &Plan,
    script: &Script,
    registry: &Registry,
    begin: u64,
    wanted: &str,
) {
    holds(rt, "one change", plan.len() == 1);
    holds(rt, "in time", begin <= LAST_BEGIN);
    let runner = Runner::start(plan, script, registry, 7, 0, begin);
    let actual = described(rt, alloc, plan, script, runner, begin);
    text_is(rt, wanted, actual.trim_end(), wanted);
}

/// Fails if a change has other events than its row lists. A row has the actions, the steps, and the
/// events of a change that begins at that second.
fn rows_hold(rt: &impl Abort, alloc: Global, registry: &Registry, begin: u64, table: &str) {
    for row in table.lines() {
        let (actions, rest) = parted(rt, row);
        let (steps, wanted) = parted(rt, rest);
        let plan = plan_of(rt, alloc, actions);
        let script = script_of(rt, alloc, plan, steps);
        events_are(rt, alloc, plan, script, registry, begin, wanted);
    }
}

/// One rule that halts steps of that kind, or of every kind, in that phase.
fn halting(rt: &impl Abort, alloc: Global, phase: Phase, kind: Option<StepKind>) -> Rules
    ensures { result ≡ halting phase kind }
{
    Rules::halting(alloc, Some(phase), kind, "").expect(rt, "memory")
}

/// The verdict of the closure of a hook with that rule.
fn halts(call: &HookCall<'_>, phase: Phase, kind: Option<StepKind>) -> Verdict
    ensures { result ≡ verdict_of (halting phase kind) (call_of call.now) }
{
    let of_kind = match kind {
        Some(kind) => call.kind == kind,
        None => true,
    };
    if call.phase == phase && of_kind {
        Verdict::Halt
    } else {
        Verdict::Continue
    }
}

/// Adds a hook with that closure, which answers as the rules do.
fn add_hook(rt: &impl Abort, registry: &mut Registry, rules: Rules, answer: HookClosure)
    requires { AnswersAs (pre answer) (post answer) rules }
{
    let added = registry.add(FnHook::new(rules, answer));
    holds(rt, "a hook was added", added.is_ok());
}

/// Fails if the events differ from a table, of changes or of lanes, under three hooks. The first
/// hook halts updates in that phase, and the table has none. The two others halt steps of that kind
/// in that phase.
fn rows_hold_under(
    rt: &impl Abort,
    alloc: Global,
    phase: Phase,
    kind: Option<StepKind>,
    table: &str,
) {
    let mut registry = Registry::new(alloc);
    for kind in [Some(StepKind::Update), kind, kind] {
        let rules = halting(rt, alloc, phase, kind);
        let answer: HookClosure = Box::new(alloc, move |call: &HookCall<'_>| {
            halts(call, phase, kind)
        })
        .expect(rt, "memory");
        add_hook(rt, &mut registry, rules, answer);
    }
    if table.contains("\nin ") {
        lanes::lanes_report(rt, alloc, &registry, table);
    } else {
        rows_hold(rt, alloc, &registry, 0, table);
    }
}
