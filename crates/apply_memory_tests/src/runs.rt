//! Runs from bytes.

use crate::printing::{answer, begin, leaked, lines};
use crate::readers::{ONE_CREATE, ONE_SCRIPT};
use apply_hooks::Registry;
use apply_run::{Gate, MemorySink, Options, Sink, apply_bytes};
use apply_text::{Operation, Start};
use std::alloc::Global;
use std::io;
use std::sync::Wait;
use std::sync::atomic::{AtomicU64, Ordering};
use std::thread::Threads;

/// A plan with three creates.
pub const THREE_CREATES: &str =
    r#"{"format_version":"1.2","terraform_version":"1.9.0","resource_changes":[{"address":"null_resource.a","mode":"managed","type":"null_resource","name":"a","change":{"actions":["create"]}},{"address":"null_resource.b","mode":"managed","type":"null_resource","name":"b","change":{"actions":["create"]}},{"address":"null_resource.c","mode":"managed","type":"null_resource","name":"c","change":{"actions":["create"]}}]}"#;

/// The script of the plan.
pub const THREE_SPANS: &str =
    r#"{"changes":[{"address":"null_resource.b","steps":[{"seconds":20}]},{"address":"null_resource.c","steps":[{"seconds":5}]}]}"#;

/// Counts how often it was asked.
#[derive(Drop)]
struct Counting {
    asked: AtomicU64,
}

impl Gate for Counting {
    fn pass(&self, _worker: u8, _change: u32, _step: u8) {
        self.asked.fetch_add(1, Ordering::SeqCst);
    }
}

/// One create with a script, by one worker.
pub fn by_one<R: Print + Threads + Wait + Sync>(rt: &R, alloc: Global) -> io::Result<()> {
    apply(rt, alloc, ONE_CREATE, ONE_SCRIPT, 1, 64)
}

/// Three creates with a script, by eight workers over a bus of one message.
pub fn by_eight<R: Print + Threads + Wait + Sync>(rt: &R, alloc: Global) -> io::Result<()> {
    apply(rt, alloc, THREE_CREATES, THREE_SPANS, 8, 1)
}

/// Applies the plan. Prints how the run ended, how many writes failed, how often the gate was
/// asked, and what was written.
fn apply<R: Print + Threads + Wait + Sync>(
    rt: &R,
    alloc: Global,
    plan: &str,
    script: &str,
    workers: u8,
    capacity: u16,
) -> io::Result<()> {
    let gate = Counting {
        asked: AtomicU64::new(0),
    };
    let options = Options {
        workers,
        capacity,
        start: Start::zero(),
        operation: Operation::Apply,
    };
    let registry = leaked(alloc, Registry::new(alloc))?;
    begin(rt)?;
    let (sink, result) = apply_bytes(
        rt,
        alloc,
        plan.as_bytes(),
        Some(script.as_bytes()),
        registry,
        options,
        MemorySink::new(alloc, usize::MAX, None),
        &gate,
    );
    answer(rt, &result)?;
    print_line(rt, &sink, gate.asked.load(Ordering::SeqCst))
}

/// Prints how many writes failed, how often the gate was asked, and what was written.
fn print_line(rt: &impl Print, sink: &MemorySink, asked: u64) -> io::Result<()> {
    println!(rt; "failed {} asked {asked}", sink.failures())?;
    lines(rt, sink.bytes())
}
