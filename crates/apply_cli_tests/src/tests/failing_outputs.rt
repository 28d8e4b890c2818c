//! Outputs that fail at each byte, and errors that go out in one write.

use super::*;
use std::fmt::Display;
use stream_tool::report;

/// A replacement that creates first.
pub(super) const FAILED_DESTROY: &str =
    r#"{"format_version":"1.2","terraform_version":"1.9.0","resource_changes":[{"address":"null_resource.a","mode":"managed","type":"null_resource","name":"a","change":{"actions":["create","delete"]}}]}"#;

/// Its second step fails.
pub(super) const FAILED_DESTROY_SCRIPT: &str =
    r#"{"changes":[{"address":"null_resource.a","steps":[{"seconds":0},{"seconds":4,"failed":{"summary":"boom"}}]}]}"#;

/// The stream of plan and script.
const FAILED_DESTROY_STREAM: &str =
    r#"{"@level":"info","@message":"Terraform 1.9.0","@module":"terraform.ui","@timestamp":"1970-01-01T00:00:00Z","terraform":"1.9.0","type":"version","ui":"1.0"}
{"@level":"info","@message":"null_resource.a: Creating...","@module":"terraform.ui","@timestamp":"1970-01-01T00:00:00Z","hook":{"action":"create","resource":{"addr":"null_resource.a","implied_provider":"null","module":"","resource":"null_resource.a","resource_key":null,"resource_name":"a","resource_type":"null_resource"}},"type":"apply_start"}
{"@level":"info","@message":"null_resource.a: Creation complete after 0s","@module":"terraform.ui","@timestamp":"1970-01-01T00:00:00Z","hook":{"action":"create","elapsed_seconds":0,"resource":{"addr":"null_resource.a","implied_provider":"null","module":"","resource":"null_resource.a","resource_key":null,"resource_name":"a","resource_type":"null_resource"}},"type":"apply_complete"}
{"@level":"info","@message":"null_resource.a: Destroying...","@module":"terraform.ui","@timestamp":"1970-01-01T00:00:00Z","hook":{"action":"delete","resource":{"addr":"null_resource.a","implied_provider":"null","module":"","resource":"null_resource.a","resource_key":null,"resource_name":"a","resource_type":"null_resource"}},"type":"apply_start"}
{"@level":"info","@message":"null_resource.a: Destruction errored after 4s","@module":"terraform.ui","@timestamp":"1970-01-01T00:00:04Z","hook":{"action":"delete","elapsed_seconds":4,"resource":{"addr":"null_resource.a","implied_provider":"null","module":"","resource":"null_resource.a","resource_key":null,"resource_name":"a","resource_type":"null_resource"}},"type":"apply_errored"}
{"@level":"error","@message":"Error: boom","@module":"terraform.ui","@timestamp":"1970-01-01T00:00:04Z","diagnostic":{"address":"null_resource.a","detail":"","severity":"error","summary":"boom"},"type":"diagnostic"}
{"@level":"info","@message":"Apply complete! Resources: 1 added, 0 changed, 0 destroyed.","@module":"terraform.ui","@timestamp":"1970-01-01T00:00:04Z","changes":{"add":1,"change":0,"operation":"apply","remove":0},"type":"change_summary"}
"#;

/// Fails unless so many workers write just the first `room` bytes of the stream, with this status
/// and these errors.
fn fails_so<T: Threads + Wait + Sync + Abort>(
    rt: &T,
    alloc: Global,
    workers: u8,
    output: FailingWriter,
    room: usize,
    status: u8,
    text: &str,
) {
    let settings = leaked(rt, alloc, with_sizes(alloc, workers, 64));
    let (plan, script) = (
        FAILED_DESTROY.as_bytes(),
        Some(FAILED_DESTROY_SCRIPT.as_bytes()),
    );
    let mut errors = Vec::new(alloc);
    let (output, actual) = command(rt, alloc, settings, script, plan, output, &mut errors);
    let outcome = outcome_of(rt, alloc, actual, output.taken, errors);
    let front = front_of(rt, FAILED_DESTROY_STREAM, room);
    outcome_is(rt, front, outcome, status, front, text);
}

/// Fails if an output with room for so many bytes gets others, or if the status or the errors
/// differ.
fn takes_so_many<T: Threads + Wait + Sync + Abort>(
    rt: &T,
    alloc: Global,
    workers: u8,
    per_write: usize,
    room: usize,
) {
    let output = with_room(alloc, per_write, room);
    if room < FAILED_DESTROY_STREAM.len() {
        fails_so(rt, alloc, workers, output, room, 3, UNWRITTEN);
    } else {
        fails_so(rt, alloc, workers, output, room, 1, "");
    }
}

/// Whichever byte is the first that the output refuses, it has all bytes before it and nothing
/// more.
fn fails_with_each_write<T: Threads + Wait + Sync + Abort>(
    rt: &T,
    alloc: Global,
    workers: u8,
    per_write: usize,
) {
    for room in 0..=FAILED_DESTROY_STREAM.len() {
        takes_so_many(rt, alloc, workers, per_write, room);
    }
}

/// Tests each number of bytes for a write: single bytes, few, and whole lines.
fn fails_at_each_byte<T: Threads + Wait + Sync + Abort>(rt: &T, alloc: Global, workers: u8) {
    fails_with_each_write(rt, alloc, workers, 1);
    fails_with_each_write(rt, alloc, workers, 7);
    fails_with_each_write(rt, alloc, workers, 4096);
}

#[test]
fn an_output_fails_under_one_worker(rt: HostRuntime) {
    fails_at_each_byte(&rt, rt.alloc(), 1);
}

#[test]
fn an_output_fails_under_two_workers(rt: HostRuntime) {
    fails_at_each_byte(&rt, rt.alloc(), 2);
}

/// A test of its own, since eight threads for each byte take their time.
#[test]
fn an_output_of_single_bytes_fails_under_eight_workers(rt: HostRuntime) {
    fails_with_each_write(&rt, rt.alloc(), 8, 1);
}

#[test]
fn an_output_of_few_bytes_fails_under_eight_workers(rt: HostRuntime) {
    fails_with_each_write(&rt, rt.alloc(), 8, 7);
}

#[test]
fn an_output_of_whole_lines_fails_under_eight_workers(rt: HostRuntime) {
    fails_with_each_write(&rt, rt.alloc(), 8, 4096);
}

/// An output accepts all bytes, but its flush fails: the error is reported, unless the reader is
/// gone.
#[test]
fn a_flush_that_fails_is_reported(rt: HostRuntime) {
    let (alloc, room) = (rt.alloc(), FAILED_DESTROY_STREAM.len());
    for workers in [1, 2, 8] {
        let output = unflushed(alloc, room, ErrorKind::StorageFull);
        fails_so(&rt, alloc, workers, output, room, 3, UNWRITTEN);
    }
    let output = unflushed(alloc, room, ErrorKind::BrokenPipe);
    fails_so(&rt, alloc, 1, output, room, 3, "");
}

/// Stores what is written, and counts the writes.
#[derive(Drop)]
struct Counting {
    taken: Vec<u8>,
    writes: u64,
}

impl Write for Counting {
    fn write(&mut self, bytes: &[u8]) -> io::Result<usize> {
        self.taken.extend_from_slice(bytes)?;
        self.writes = self.writes.saturating_add(1);
        Ok(bytes.len())
    }

    fn flush(&mut self) -> io::Result<()> {
        Ok(())
    }
}

/// Fails if the error has another text. Returns in how many writes it went out.
fn goes_out<D: Display + Drop>(rt: &impl Abort, alloc: Global, fault: D, wanted: &str) -> u64 {
    let mut errors = Counting {
        taken: Vec::new(alloc),
        writes: 0,
    };
    report(&mut errors, fault);
    let (errors, writes) = (leaked_bytes(rt, alloc, errors.taken), errors.writes);
    line_is(rt, wanted, errors, wanted, "\n");
    writes
}

#[test]
fn a_fault_goes_out_in_one_write(rt: HostRuntime) {
    let alloc = rt.alloc();
    let unknown = Refusal::Script(ScriptError::TooManySteps(9999));
    let writes = goes_out(&rt, alloc, unknown, "script entry 9999 has too many steps");
    holds(&rt, "a fault", writes == 1);
    holds(&rt, "nothing", goes_out(&rt, alloc, "", "") == 1);
}

/// A text longer than any error still goes out whole.
#[test]
fn a_long_fault_goes_out_whole(rt: HostRuntime) {
    let alloc = rt.alloc();
    let text = "a".repeat(alloc, 260).expect(&rt, "memory");
    let text = leaked_text(&rt, alloc, text);
    for length in 240..260 {
        let text = front_of(&rt, text, length);
        let _writes = goes_out(&rt, alloc, text, text);
    }
}
