//! Builds lines, each in a text of its own and after another one.

use crate::printing::{answer, begin, leaked};
use crate::readers::{ONE_CREATE, plan_of};
use apply_events::{Counts, Runner};
use apply_hooks::Registry;
use apply_plan::{Plan, Script};
use apply_text::{LineBuffer, Operation, Start, event_line, summary_line, version_line};
use std::alloc::{AllocError, Global};
use std::io;
use std::io::ErrorKind;

/// Makes the version line.
pub fn version(rt: &impl Print, alloc: Global) -> io::Result<()> {
    let plan = plan_of(alloc, ONE_CREATE)?;
    begin(rt)?;
    answer(rt, &version_line(alloc, plan, Start::zero()))
}

/// Makes the summary line.
pub fn summary(rt: &impl Print, alloc: Global) -> io::Result<()> {
    begin(rt)?;
    let counts = Counts::new();
    let line = summary_line(alloc, Start::zero(), 0, Operation::Apply, &counts);
    answer(rt, &line)
}

/// A script without entries.
fn no_script(alloc: Global) -> io::Result<&'static Script> {
    Ok(leaked(alloc, Script::empty())?)
}

/// The answer if the plan has no event.
fn no_event() -> io::Result<()> {
    Err(io::Error::from(ErrorKind::InvalidData))
}

/// Makes the line of the plan's first event.
pub fn event(rt: &impl Print, alloc: Global) -> io::Result<()> {
    let plan = plan_of(alloc, ONE_CREATE)?;
    let registry = leaked(alloc, Registry::new(alloc))?;
    event_of(rt, alloc, plan, no_script(alloc)?, registry)
}

/// Makes the line of the first event of that plan.
fn event_of(
    rt: &impl Print,
    alloc: Global,
    plan: &Plan,
    script: &Script,
    registry: &Registry,
) -> io::Result<()> {
    if plan.len() == 0 {
        return no_event();
    }
    let mut runner = Runner::start(plan, script, registry, 0, 0, 0);
    let Some(event) = runner.next() else {
        return no_event();
    };
    begin(rt)?;
    let line = event_line(alloc, plan, script, Start::zero(), event.at, &event);
    answer(rt, &line)
}

/// A buffer with one line.
fn begun(alloc: Global, plan: &Plan) -> io::Result<&'static mut LineBuffer> {
    let buffer = leaked(alloc, LineBuffer::new(alloc))?;
    buffer.push_version(plan, Start::zero())?;
    Ok(buffer)
}

/// Prints a word, and the content of the buffer.
fn print_line(rt: &impl Print, word: &str, buffer: &LineBuffer) -> io::Result<()> {
    match str::from_utf8(buffer.as_bytes()) {
        Ok(lines) => println!(rt; "{word} {lines:?}"),
        Err(_) => println!(rt; "no text"),
    }
}

/// Prints how adding a line ended, and the content of the buffer.
fn print_pushed(
    rt: &impl Print,
    pushed: Result<(), AllocError>,
    buffer: &LineBuffer,
) -> io::Result<()> {
    let word = if pushed.is_ok() { "Ok" } else { "Err" };
    print_line(rt, word, buffer)
}

/// Adds the version line to a buffer.
pub fn pushed_version(rt: &impl Print, alloc: Global) -> io::Result<()> {
    let plan = plan_of(alloc, ONE_CREATE)?;
    let buffer = begun(alloc, plan)?;
    print_line(rt, "call", buffer)?;
    let pushed = buffer.push_version(plan, Start::zero());
    print_pushed(rt, pushed, buffer)
}

/// Adds the summary to a buffer.
pub fn pushed_summary(rt: &impl Print, alloc: Global) -> io::Result<()> {
    let plan = plan_of(alloc, ONE_CREATE)?;
    let buffer = begun(alloc, plan)?;
    print_line(rt, "call", buffer)?;
    let pushed = buffer.push_summary(Start::zero(), 0, Operation::Apply, &Counts::new());
    print_pushed(rt, pushed, buffer)
}

/// Adds the line of the plan's first event to a buffer.
pub fn pushed_event(rt: &impl Print, alloc: Global) -> io::Result<()> {
    let plan = plan_of(alloc, ONE_CREATE)?;
    let buffer = begun(alloc, plan)?;
    let registry = leaked(alloc, Registry::new(alloc))?;
    push_event_of(rt, plan, no_script(alloc)?, registry, buffer)
}

/// Adds the line of the first event of that plan.
fn push_event_of(
    rt: &impl Print,
    plan: &Plan,
    script: &Script,
    registry: &Registry,
    buffer: &mut LineBuffer,
) -> io::Result<()> {
    if plan.len() == 0 {
        return no_event();
    }
    let mut runner = Runner::start(plan, script, registry, 0, 0, 0);
    let Some(event) = runner.next() else {
        return no_event();
    };
    print_line(rt, "call", buffer)?;
    let pushed = buffer.push_event(plan, script, Start::zero(), event.at, &event);
    print_pushed(rt, pushed, buffer)
}
