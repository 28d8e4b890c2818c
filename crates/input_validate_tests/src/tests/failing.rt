//! Tests of wrong arguments, and of inputs and outputs that fail.

use crate::tests::PLAN;
use crate::tests::streams::{Broken, LimitedWriter};
use input_validate::Form;
use input_validate_cli::{InputSizes, Validate, ValidateFault, validate};
use std::alloc::Global;
use std::io::ErrorKind;
use std::process::Abort;
use std::rt::Files;
use stream_tool::{Outcome, run_tool};

/// The output for the plan.
const ACCEPTED: &str = "the plan is accepted\n";

/// The writer fails after each number of bytes, the last one included. Nothing is printed if the
/// reader of the output is gone.
#[test]
fn writer_that_fails(rt: HostRuntime) {
    let stated = "applystream: the output could not be written\n";
    for room in 0..=ACCEPTED.len() {
        fails(&rt, rt.alloc(), room, ErrorKind::StorageFull, false, stated);
        fails(&rt, rt.alloc(), room, ErrorKind::BrokenPipe, true, "");
    }
}

/// Fails if validating into a writer with this room ends in another way.
fn fails(
    rt: &impl Abort,
    alloc: Global,
    room: usize,
    kind: ErrorKind,
    is_gone: bool,
    stated: &str,
) {
    let mut out = LimitedWriter::new(alloc, room, kind);
    let mut faults = Vec::new(alloc);
    let (form, plan) = (Form::Applystream, PLAN.as_bytes());
    let sizes = InputSizes::of(plan, None);
    let outcome = validate(alloc, form, false, plan, None, sizes, &mut out, &mut faults);
    assert_eq!(rt; outcome.status, 3);
    assert_eq!(rt; matches!(outcome.answer, Err(ValidateFault::Gone)), is_gone);
    assert_eq!(rt;
        matches!(outcome.answer, Err(ValidateFault::Unwritten)),
        !is_gone
    );
    assert_eq!(rt; faults.as_slice(), stated.as_bytes());
    let front = ACCEPTED.as_bytes().get(..room).unwrap_or(&[]);
    assert_eq!(rt; out.bytes.as_slice(), front);
}

/// Runs the tool with a plan that cannot be read to its end. The output has to stay empty, and the
/// error has to be printed.
fn refused<F: Files>(
    rt: &impl Abort,
    files: &F,
    alloc: Global,
    words: &[&str],
    stated: &str,
) -> Outcome<Result<(), ValidateFault>> {
    let mut texts = Vec::new(alloc);
    for word in words {
        let text = String::from_str(alloc, word).expect(rt, "memory");
        texts.push(text).expect(rt, "memory");
    }
    let mut out = Vec::new(alloc);
    let mut faults = Vec::new(alloc);
    let outcome = run_tool(
        &Validate,
        files,
        alloc,
        &texts,
        false,
        &mut Broken::new(),
        &mut out,
        &mut faults,
    );
    assert_eq!(rt; outcome.status, 2);
    assert!(rt; out.is_empty());
    assert!(rt; faults.as_slice().starts_with(stated.as_bytes()));
    outcome
}

#[test]
fn inputs_that_cannot_be_read(rt: HostRuntime) {
    let plan = refused(
        &rt,
        &rt,
        rt.alloc(),
        &[],
        "applystream: the plan could not be read\n",
    );
    assert!(rt; matches!(plan.answer, Some(Err(ValidateFault::Plan(_)))));
    let words = ["--script", "no/such\nscript.json"];
    let stated =
        "applystream: the script file no/such\\nscript.json could not be opened: No such file or directory (os error 2)\n";
    let script = refused(&rt, &rt, rt.alloc(), &words, stated);
    assert!(rt; matches!(script.answer, Some(Err(ValidateFault::Unopened(_)))));
    let words = ["--script", "."];
    let stated = "applystream: the script file . could not be read: Is a directory (os error 21)\n";
    let script = refused(&rt, &rt, rt.alloc(), &words, stated);
    assert!(rt; matches!(script.answer, Some(Err(ValidateFault::Script(_)))));
    let unknown = refused(&rt, &rt, rt.alloc(), &["--scripts"], "error: ");
    assert!(rt; unknown.answer.is_none());
}

#[test]
fn options_that_do_not_go_together(rt: HostRuntime) {
    let words = ["--command", "plan", "--form", "applystream"];
    let stated = "applystream: --command takes --form terraform\n";
    let form = refused(&rt, &rt, rt.alloc(), &words, stated);
    assert!(rt; form.answer.is_none());
    let words = ["--refresh", "true", "--command", "saved"];
    let stated = "applystream: --refresh takes --command plan, apply or destroy\n";
    let refresh = refused(&rt, &rt, rt.alloc(), &words, stated);
    assert!(rt; refresh.answer.is_none());
}
