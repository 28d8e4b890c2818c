//! Whole runs, from the input to the exit status. The room for what they print is reserved before.

use crate::printing::{begin, leaked, lines};
use crate::readers::{ONE_CREATE, ONE_SCRIPT};
use crate::runs::{THREE_CREATES, THREE_SPANS};
use apply_cli::{read_all, run_command};
use apply_cli_args::Settings;
use apply_hooks::Registry;
use apply_run::StdSink;
use apply_text::{Operation, Start};
use std::alloc::Global;
use std::io;
use std::sync::Wait;
use std::thread::Threads;

/// How many bytes are read: more than come with one read.
const INPUT_LEN: usize = 200_000;

/// Reads an input.
pub fn input(rt: &impl Print, alloc: Global) -> io::Result<()> {
    let bytes = leaked(alloc, vec![in alloc; b'x'; INPUT_LEN]?)?.as_slice();
    begin(rt)?;
    match read_all(alloc, bytes) {
        Ok(result) => println!(rt; "Ok {}", result.as_slice() == bytes),
        Err(fault) => println!(rt; "Err({fault:?})"),
    }
}

/// One create with a script, by one worker.
pub fn by_one<R: Print + Threads + Wait + Sync>(rt: &R, alloc: Global) -> io::Result<()> {
    run(rt, alloc, ONE_CREATE, ONE_SCRIPT, 1, 64)
}

/// Three creates with a script, by eight workers over a bus of one message.
pub fn by_eight<R: Print + Threads + Wait + Sync>(rt: &R, alloc: Global) -> io::Result<()> {
    run(rt, alloc, THREE_CREATES, THREE_SPANS, 8, 1)
}

/// The default settings, with other workers and another queue.
fn settings_of(alloc: Global, workers: u8, queue: u16) -> io::Result<&'static Settings> {
    let settings = Settings {
        at: Start::zero(),
        script: None,
        workers,
        queue,
        operation: Operation::Apply,
        halts: Vec::new(alloc),
    };
    Ok(leaked(alloc, settings)?)
}

/// Room for more bytes than are printed.
fn room(alloc: Global) -> io::Result<Vec<u8>> {
    Ok(Vec::with_capacity(alloc, 16_384)?)
}

/// Runs the plan. Prints the status, the errors and the output.
fn run<R: Print + Threads + Wait + Sync>(
    rt: &R,
    alloc: Global,
    plan: &str,
    script: &str,
    workers: u8,
    queue: u16,
) -> io::Result<()> {
    let settings = settings_of(alloc, workers, queue)?;
    let registry = leaked(alloc, Registry::new(alloc))?;
    let (output, errors) = (StdSink::new(room(alloc)?), leaked(alloc, room(alloc)?)?);
    begin(rt)?;
    let (output, status) = run_command(
        rt,
        alloc,
        settings,
        registry,
        Some(script.as_bytes()),
        plan.as_bytes(),
        output,
        errors,
    );
    println!(rt; "status {status}")?;
    println!(rt; "said {} bytes", errors.len())?;
    lines(rt, errors.as_slice())?;
    lines(rt, output.into_inner().as_slice())
}
