//! What no clause states: that the definitions are the intended ones, and that calls succeed when
//! memory suffices. The expected lines are those of Terraform 1.11.4, except for their timestamps.
//!
//! A test is proved before it runs, so it is written for a short proof. Rows are texts. The
//! functions here are short, and end the test at once when memory is refused. What they make lives
//! until the test ends.

ghost use Rattle.std.specs.Prelude.{◌≡◌, true};
ghost use Rattle.apply_events.specs.Fits.{HasStep};

mod cached_parts;
mod escapes;
mod lines;
mod outputs;

use apply_events::{Event, LATEST, What};
use apply_hooks::Phase;
use apply_model::{Diag, Key, Text};
use apply_plan::{Plan, Script, read_plan, read_script};
use apply_text::Start;
use apply_text_terraform::{
    ChangeDetails, Importing, Note, Output, PreviousResource, Reason, Severity, TerraformBuffer,
};
use std::alloc::Global;
use std::process::Abort;

/// A script without changes.
const NO_OUTCOMES: &str = r#"{"changes":[]}"#;

/// Fails when `is_so` is false. A call makes a proof grow less than an assertion does.
fn holds(rt: &impl Abort, case: &str, is_so: bool)
    ensures { is_so ≡ true }
{
    assert!(rt; is_so, "{case}");
}

/// Keeps a value as long as the test runs. A proof grows with each place at which a value is
/// dropped.
fn leaked<'a, T: Drop + 'a>(rt: &impl Abort, alloc: Global, value: T) -> &'a T {
    let leaked = Box::new(alloc, value).expect(rt, "memory");
    &*Box::leak(leaked)
}

/// The texts before and after the first mark.
fn parted<'a>(rt: &impl Abort, text: &'a str, mark: &str) -> (&'a str, &'a str) {
    text.split_once(mark).expect(rt, "a mark")
}

/// Fails when the bytes differ.
fn compare(rt: &impl Abort, case: &str, actual: &[u8], wanted: &str) {
    assert!(rt; actual == wanted.as_bytes(), "at {case}");
}

/// Reads a plan. Fails when it is refused.
fn plan_of(rt: &impl Abort, alloc: Global, text: &str) -> &'static Plan {
    let plan = read_plan(alloc, text.as_bytes());
    leaked(rt, alloc, plan.ok().expect(rt, "a plan"))
}

/// Reads a script. Fails when it is refused.
fn script_of(rt: &impl Abort, alloc: Global, text: &str, plan: &Plan) -> &'static Script {
    let script = read_script(alloc, text.as_bytes(), plan);
    leaked(rt, alloc, script.ok().expect(rt, "a script"))
}

fn text_of(rt: &impl Abort, alloc: Global, text: &str) -> Text {
    Text::new(alloc, text).expect(rt, "memory")
}

/// Fails when the plan does not have the event's step.
fn check_step(rt: &impl Abort, plan: &Plan, event: &Event)
    ensures { HasStep plan.now event.now.change event.now.step }
{
    holds(rt, "a change", event.change < plan.len());
    let steps = plan.change(event.change).steps();
    holds(rt, "a step", (event.step as usize) < steps.len());
}
