//! Tests of what no contract states: scripts as whole texts, and that a run accepts them.

ghost use Rattle.std.specs.Prelude.{◌≤◌, length, map, sum_by};
ghost use Rattle.apply_model.specs.Script.Limits.{max_waits};

use apply_model::{Diag, Note, Severity, Text};
use apply_plan::{Plan, read_plan, read_script};
use std::alloc::{AllocError, Global};
use std::process::Abort;
use stream_record::{Output, even_script, script_text};

/// A replacement that deletes first, the delete of a deposed object, a change without steps, an
/// update, and a read.
const PLAN: &str = r#"{"format_version":"1.2","resource_changes":[
{"address":"a.a","mode":"managed","type":"a","name":"a","change":{"actions":["delete","create"]}},
{"address":"a.b","mode":"managed","type":"a","name":"b","deposed":"0123\"567","change":{"actions":["delete"]}},
{"address":"a.c","mode":"managed","type":"a","name":"c","change":{"actions":["no-op"]}},
{"address":"a.d","mode":"managed","type":"a","name":"d","change":{"actions":["update"]}},
{"address":"data.a.e","mode":"data","type":"a","name":"e","change":{"actions":["read"]}}]}"#;

/// The script without waits.
const ALONE: &str =
    r#"{"changes":[{"address":"a.a","steps":[{"seconds":1},{"seconds":1}]},{"address":"a.b","deposed":"0123\"567","steps":[{"seconds":1}]},{"address":"a.d","steps":[{"seconds":1}]},{"address":"data.a.e","steps":[{"seconds":1}]}]}"#;

/// The script where the first step waits for the deposed object, and the update for three others.
const WAITING: &str =
    r#"{"changes":[{"address":"a.a","steps":[{"seconds":1,"after":[{"address":"a.b","deposed":"0123\"567"}]},{"seconds":1}]},{"address":"a.b","deposed":"0123\"567","steps":[{"seconds":1}]},{"address":"a.d","steps":[{"seconds":1,"after":[{"address":"a.a","step":0},"a.a",{"address":"a.b","deposed":"0123\"567"}]}]},{"address":"data.a.e","steps":[{"seconds":1}]}]}"#;

/// A script that states no step.
const STATES_NO_STEP: &str =
    r#"{"changes":[],"outputs":{"n":{"sensitive":false,"type":"number","value":1.0},"s\"":{"sensitive":true,"type":["list","string"]}},"diagnostics":[{"severity":"warning","summary":"slow"},{"severity":"error","summary":"","detail":"of no step","address":"a.d","range":{"filename":"main.tf"},"snippet":{"code":"x"}}]}"#;

/// The plan.
fn plan(rt: &impl Abort, alloc: Global) -> Plan {
    read_plan(alloc, PLAN.as_bytes()).ok().expect(rt, "a plan")
}

/// Fails unless the bytes are this script and a line feed, and a run accepts them.
fn check(rt: &impl Abort, alloc: Global, bytes: &[u8], plan: &Plan, script: &str) {
    let (front, end) = bytes.split_at(bytes.len().min(script.len()));
    assert!(rt; front == script.as_bytes() && end == b"\n".as_slice());
    let accepted = read_script(alloc, bytes, plan).is_ok();
    assert!(rt; accepted);
}

/// Fails unless the script in which each step takes a second, with these waits, is this text.
fn check_even(rt: &impl Abort, alloc: Global, waits: &[Vec<usize>], script: &str)
    requires { sum_by length (map (λ numbers. numbers.items) waits.now) ≤ max_waits }
{
    let plan = plan(rt, alloc);
    let even = even_script(alloc, &plan, waits).expect(rt, "memory");
    let text = script_text(alloc, &plan, &even, &[], &[]).expect(rt, "a script");
    check(rt, alloc, text.as_bytes(), &plan, script);
}

#[test]
fn without_waits(rt: HostRuntime) {
    check_even(&rt, rt.alloc(), &[], ALONE);
}

/// The step of number 9 is none of the plan.
#[test]
fn with_waits(rt: HostRuntime) -> Result<(), AllocError> {
    let alloc = rt.alloc();
    let waits = [
        [2, 9].to_vec(alloc)?,
        [9].to_vec(alloc)?,
        Vec::new(alloc),
        [0, 1, 2].to_vec(alloc)?,
    ];
    check_even(&rt, alloc, &waits, WAITING);
    Ok(())
}

/// A number of which only the text is written.
fn number(alloc: Global) -> Result<Output, AllocError> {
    Ok(Output {
        name: Text::new(alloc, "n")?,
        is_sensitive: false,
        type_json: Text::new(alloc, "\"number\"")?,
        value_json: Some(Text::new(alloc, "1.0")?),
    })
}

/// An output whose value is missing.
fn secret(alloc: Global) -> Result<Output, AllocError> {
    Ok(Output {
        name: Text::new(alloc, "s\"")?,
        is_sensitive: true,
        type_json: Text::new(alloc, "[\"list\",\"string\"]")?,
        value_json: None,
    })
}

fn warning(alloc: Global) -> Result<Note, AllocError> {
    Ok(Note {
        severity: Severity::Warning,
        diag: Diag {
            summary: Text::new(alloc, "slow")?,
            detail: Text::new(alloc, "")?,
            range: None,
            snippet: None,
        },
        address: None,
    })
}

fn error(alloc: Global) -> Result<Note, AllocError> {
    Ok(Note {
        severity: Severity::Error,
        diag: Diag {
            summary: Text::new(alloc, "")?,
            detail: Text::new(alloc, "of no step")?,
            range: Some(Text::new(alloc, "{\"filename\":\"main.tf\"}")?),
            snippet: Some(Text::new(alloc, "{\"code\":\"x\"}")?),
        },
        address: Some(Text::new(alloc, "a.d")?),
    })
}

#[test]
fn outputs_and_diagnostics(rt: HostRuntime) -> Result<(), AllocError> {
    let alloc = rt.alloc();
    let plan = plan(&rt, alloc);
    let outputs = [number(alloc)?, secret(alloc)?];
    let notes = [warning(alloc)?, error(alloc)?];
    let text = script_text(alloc, &plan, &[], &outputs, &notes).expect(&rt, "a text");
    check(&rt, alloc, text.as_bytes(), &plan, STATES_NO_STEP);
    Ok(())
}
