//! Tests of what no contract states: the definitions mean what was intended, and calls succeed with
//! enough memory.

ghost use Rattle.std.specs.Prelude.{◌≡◌, true};

mod accepted;
mod limits;
mod outcomes;
mod own_texts;
mod plain;
mod plans;
mod provisioning;
mod questions;
mod skipped;
mod table;

use self::table::compare;
use apply_plan::{Plan, Script, Text, read_plan, read_script};
use std::alloc::Global;
use std::fmt::{Debug, Display};
use std::process::Abort;

/// A plan of one change, which creates `null_resource.a`.
const ONE_CREATE: &str =
    r#"{"format_version":"1.2","terraform_version":"1.9.0","resource_changes":[{"address":"null_resource.a","mode":"managed","type":"null_resource","name":"a","change":{"actions":["create"]}}]}"#;

/// Leaks a value until the test ends. A proof grows with each place where a value is dropped.
fn leaked<'a, T: Drop + 'a>(rt: &impl Abort, alloc: Global, value: T) -> &'a T {
    let leaked = Box::new(alloc, value).expect(rt, "memory");
    &*Box::leak(leaked)
}

/// Leaks a text until the test ends.
fn leaked_text(rt: &impl Abort, alloc: Global, text: String) -> &'static str {
    leaked(rt, alloc, text).as_str()
}

/// Reads a plan that must be valid.
fn plan_of(rt: &impl Abort, alloc: Global, text: &str) -> &'static Plan {
    let plan = read_plan(alloc, text.as_bytes());
    leaked(rt, alloc, plan.ok().expect(rt, text))
}

/// Reads a script that must be valid.
fn script_of(rt: &impl Abort, alloc: Global, plan: &str, text: &str) -> &'static Script {
    let plan = plan_of(rt, alloc, plan);
    let script = read_script(alloc, text.as_bytes(), plan);
    leaked(rt, alloc, script.ok().expect(rt, text))
}

/// The value as `Display` prints it.
fn shown(rt: &impl Abort, alloc: Global, value: &impl Display) -> &'static str {
    leaked_text(rt, alloc, value.to_string(alloc).expect(rt, "memory"))
}

/// The value as `Debug` prints it.
///
/// The lifetime is open: the borrow checker refuses `'static` for a value with several lifetimes.
fn printed<'a>(rt: &impl Abort, alloc: Global, value: &impl Debug) -> &'a str {
    leaked_text(
        rt,
        alloc,
        format!(in alloc; "{value:?}").expect(rt, "memory"),
    )
}

/// Fails if the condition is false. A call makes a proof grow less than an assertion does.
fn holds(rt: &impl Abort, case: &str, is_so: bool)
    ensures { is_so ≡ true }
{
    assert!(rt; is_so, "{case}");
}

#[test]
fn a_text_keeps_its_bytes(rt: HostRuntime) {
    let text = Text::new(rt.alloc(), "a").expect(&rt, "memory");
    compare(&rt, "a text", text.as_str(), "a");
}
