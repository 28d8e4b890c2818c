//! What no clause states: that the definitions are the intended ones, and that calls succeed when
//! memory suffices.
//!
//! A test is proved before it runs, so it is written for a short proof. Rows are texts. The
//! functions here are short, and end the test at once when memory is refused. What they make lives
//! until the test ends.

ghost use Rattle.std.specs.Prelude.{◌≡◌, true};
ghost use Rattle.apply_events.specs.Fits.{HasStep};

mod cached_parts;
mod events;
mod moments;
mod provisioners;
mod versions;

use apply_events::{Counts, Event, LATEST, What};
use apply_hooks::Phase;
use apply_plan::{Plan, Script, read_plan, read_script};
use apply_text::{
    LineBuffer, Operation, Start, elapsed_text, event_line, summary_line, version_line,
};
use std::alloc::Global;
use std::fmt::Display;
use std::process::Abort;

/// A script without changes.
const NO_OUTCOMES: &str = r#"{"changes":[]}"#;

/// Fails when `is_so` is false. A call makes a proof grow less than an assertion does.
fn holds(rt: &impl Abort, case: &str, is_so: bool)
    ensures { is_so ≡ true }
{
    assert!(rt; is_so, "{case}");
}

/// Keeps a value as long as the test runs. A proof grows with each place at which a value is
/// dropped.
fn leaked<'a, T: Drop + 'a>(rt: &impl Abort, alloc: Global, value: T) -> &'a T {
    let leaked = Box::new(alloc, value).expect(rt, "memory");
    &*Box::leak(leaked)
}

/// The texts before and after the first mark.
fn parted<'a>(rt: &impl Abort, text: &'a str, mark: &str) -> (&'a str, &'a str) {
    text.split_once(mark).expect(rt, "a mark")
}

fn number_of(rt: &impl Abort, text: &str) -> u32 {
    text.parse::<u32>().ok().expect(rt, "a number")
}

/// The `Display` text of a value.
fn shown(rt: &impl Abort, alloc: Global, value: &impl Display) -> &'static str {
    let text = value.to_string(alloc).expect(rt, "memory");
    leaked(rt, alloc, text).as_str()
}

/// Appends text.
fn push(rt: &impl Abort, text: &mut String, more: &str) {
    text.push_str(more).expect(rt, "memory");
}

/// Replaces each mark by another text.
fn put(rt: &impl Abort, alloc: Global, text: &str, mark: &str, other: &str) -> &'static str {
    let text = text.replace(alloc, mark, other).expect(rt, "memory");
    leaked(rt, alloc, text).as_str()
}

/// Fails when the texts differ.
fn compare(rt: &impl Abort, case: &str, actual: &str, wanted: &str) {
    assert!(rt; actual == wanted, "at {case}: {actual}");
}

/// Fails when the text is not this line with its line feed.
fn compare_line(rt: &impl Abort, case: &str, actual: &str, wanted: &str) {
    let line = actual
        .strip_suffix("\n")
        .expect(rt, "a line feed at the end");
    compare(rt, case, line, wanted);
}

/// Reads a plan. Fails when it is refused.
fn plan_of(rt: &impl Abort, alloc: Global, text: &str) -> &'static Plan {
    let plan = read_plan(alloc, text.as_bytes());
    leaked(rt, alloc, plan.ok().expect(rt, "a plan"))
}

/// Reads a script. Fails when it is refused.
fn script_of(rt: &impl Abort, alloc: Global, text: &str, plan: &Plan) -> &'static Script {
    let script = read_script(alloc, text.as_bytes(), plan);
    leaked(rt, alloc, script.ok().expect(rt, "a script"))
}

/// A script that gives nothing.
fn empty_script(rt: &impl Abort, alloc: Global) -> &'static Script {
    leaked(rt, alloc, Script::empty())
}

/// Reads a start. Fails when it is refused.
fn start_of(rt: &impl Abort, text: &str) -> Start {
    Start::read(text).ok().expect(rt, "a start")
}

/// The line of an event. The plan must have the event's step.
fn line_of(
    rt: &impl Abort,
    alloc: Global,
    plan: &Plan,
    script: &Script,
    start: Start,
    latest: u64,
    event: &Event,
) -> &'static str {
    holds(rt, "in time", latest <= LATEST);
    check_step(rt, plan, event);
    let line = event_line(alloc, plan, script, start, latest, event);
    leaked(rt, alloc, line.expect(rt, "memory")).as_str()
}

/// Fails when the plan does not have the event's step.
fn check_step(rt: &impl Abort, plan: &Plan, event: &Event)
    ensures { HasStep plan.now event.now.change event.now.step }
{
    holds(rt, "a change", event.change < plan.len());
    let steps = plan.change(event.change).steps();
    holds(rt, "a step", (event.step as usize) < steps.len());
}

/// The summary of these counts, so many seconds after a start.
fn summary_of(
    rt: &impl Abort,
    alloc: Global,
    start: Start,
    latest: u64,
    operation: Operation,
    counts: &Counts,
) -> &'static str {
    holds(rt, "in time", latest <= LATEST);
    let line = summary_line(alloc, start, latest, operation, counts);
    leaked(rt, alloc, line.expect(rt, "memory")).as_str()
}
