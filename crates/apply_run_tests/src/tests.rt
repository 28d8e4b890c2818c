//! Tests what no clause states: calls succeed with ample memory, whole streams as bytes, workers
//! run at once, lines are written meanwhile, and how sinks answer.
//!
//! A test is proved before it runs, and its proof grows with each function and each call. So a
//! plan, its script and its stream stand in one text, and few functions run and compare them.

ghost use Rattle.std.specs.Prelude.{◌≡◌, ◌<◌, ◌-◌, ◌^◌};

mod eight_workers;
mod failing_sinks;
mod gates;
mod hooks;
mod lanes;
mod refusals;
mod reports;
mod sinks;
mod threads;
mod watching;

use apply_events::Counts;
use apply_hooks::Registry;
use apply_plan::{Plan, PlanError, Script, ScriptError, read_plan, read_script};
use apply_run::{
    Fault, Gate, MemorySink, NoGate, Options, Refusal, Report, Sink, SinkFault, StdSink, Why,
    apply_bytes, apply_bytes_in_lanes, apply_in_lanes, apply_stream, write_all,
};
use apply_text::{Operation, Start};
use std::alloc::Global;
use std::process::Abort;
use std::sync::Wait;
use std::sync::atomic::{AtomicU64, Ordering};
use std::thread::{Threads, yield_now};

/// Stands for an absent script.
const NO_SCRIPT: &str = "no script";

/// A run: a plan with one change, its script, and the stream of both.
const ONE_CREATE: &str =
    r#"{"format_version":"1.2","terraform_version":"1.9.0","resource_changes":[{"address":"random_pet.animal","mode":"managed","type":"random_pet","name":"animal","change":{"actions":["create"]}}]}
no script
{"@level":"info","@message":"Terraform 1.9.0","@module":"terraform.ui","@timestamp":"1970-01-01T00:00:00Z","terraform":"1.9.0","type":"version","ui":"1.0"}
{"@level":"info","@message":"random_pet.animal: Creating...","@module":"terraform.ui","@timestamp":"1970-01-01T00:00:00Z","hook":{"action":"create","resource":{"addr":"random_pet.animal","implied_provider":"random","module":"","resource":"random_pet.animal","resource_key":null,"resource_name":"animal","resource_type":"random_pet"}},"type":"apply_start"}
{"@level":"info","@message":"random_pet.animal: Creation complete after 0s","@module":"terraform.ui","@timestamp":"1970-01-01T00:00:00Z","hook":{"action":"create","elapsed_seconds":0,"resource":{"addr":"random_pet.animal","implied_provider":"random","module":"","resource":"random_pet.animal","resource_key":null,"resource_name":"animal","resource_type":"random_pet"}},"type":"apply_complete"}
{"@level":"info","@message":"Apply complete! Resources: 1 added, 0 changed, 0 destroyed.","@module":"terraform.ui","@timestamp":"1970-01-01T00:00:00Z","changes":{"add":1,"change":0,"operation":"apply","remove":0},"type":"change_summary"}
"#;

/// A replacement that creates first; its second step fails.
const FAILED_DESTROY: &str =
    r#"{"format_version":"1.2","terraform_version":"1.9.0","resource_changes":[{"address":"null_resource.a","mode":"managed","type":"null_resource","name":"a","change":{"actions":["create","delete"]}}]}
{"changes":[{"address":"null_resource.a","steps":[{"seconds":0},{"seconds":4,"failed":{"summary":"boom"}}]}]}
{"@level":"info","@message":"Terraform 1.9.0","@module":"terraform.ui","@timestamp":"1970-01-01T00:00:00Z","terraform":"1.9.0","type":"version","ui":"1.0"}
{"@level":"info","@message":"null_resource.a: Creating...","@module":"terraform.ui","@timestamp":"1970-01-01T00:00:00Z","hook":{"action":"create","resource":{"addr":"null_resource.a","implied_provider":"null","module":"","resource":"null_resource.a","resource_key":null,"resource_name":"a","resource_type":"null_resource"}},"type":"apply_start"}
{"@level":"info","@message":"null_resource.a: Creation complete after 0s","@module":"terraform.ui","@timestamp":"1970-01-01T00:00:00Z","hook":{"action":"create","elapsed_seconds":0,"resource":{"addr":"null_resource.a","implied_provider":"null","module":"","resource":"null_resource.a","resource_key":null,"resource_name":"a","resource_type":"null_resource"}},"type":"apply_complete"}
{"@level":"info","@message":"null_resource.a: Destroying...","@module":"terraform.ui","@timestamp":"1970-01-01T00:00:00Z","hook":{"action":"delete","resource":{"addr":"null_resource.a","implied_provider":"null","module":"","resource":"null_resource.a","resource_key":null,"resource_name":"a","resource_type":"null_resource"}},"type":"apply_start"}
{"@level":"info","@message":"null_resource.a: Destruction errored after 4s","@module":"terraform.ui","@timestamp":"1970-01-01T00:00:04Z","hook":{"action":"delete","elapsed_seconds":4,"resource":{"addr":"null_resource.a","implied_provider":"null","module":"","resource":"null_resource.a","resource_key":null,"resource_name":"a","resource_type":"null_resource"}},"type":"apply_errored"}
{"@level":"error","@message":"Error: boom","@module":"terraform.ui","@timestamp":"1970-01-01T00:00:04Z","diagnostic":{"address":"null_resource.a","detail":"","severity":"error","summary":"boom"},"type":"diagnostic"}
{"@level":"info","@message":"Apply complete! Resources: 1 added, 0 changed, 0 destroyed.","@module":"terraform.ui","@timestamp":"1970-01-01T00:00:04Z","changes":{"add":1,"change":0,"operation":"apply","remove":0},"type":"change_summary"}
"#;

/// Two creates: the first fails, and the other succeeds. In the stream of one worker, the
/// diagnostic follows all other lines, at the latest timestamp.
const FIRST_FAILS: &str =
    r#"{"format_version":"1.2","terraform_version":"1.9.0","resource_changes":[{"address":"null_resource.a","mode":"managed","type":"null_resource","name":"a","change":{"actions":["create"]}},{"address":"null_resource.b","mode":"managed","type":"null_resource","name":"b","change":{"actions":["create"]}}]}
{"changes":[{"address":"null_resource.a","steps":[{"seconds":5,"failed":{"summary":"boom"}}]},{"address":"null_resource.b","steps":[{"seconds":3}]}]}
{"@level":"info","@message":"Terraform 1.9.0","@module":"terraform.ui","@timestamp":"1970-01-01T00:00:00Z","terraform":"1.9.0","type":"version","ui":"1.0"}
{"@level":"info","@message":"null_resource.a: Creating...","@module":"terraform.ui","@timestamp":"1970-01-01T00:00:00Z","hook":{"action":"create","resource":{"addr":"null_resource.a","implied_provider":"null","module":"","resource":"null_resource.a","resource_key":null,"resource_name":"a","resource_type":"null_resource"}},"type":"apply_start"}
{"@level":"info","@message":"null_resource.a: Creation errored after 5s","@module":"terraform.ui","@timestamp":"1970-01-01T00:00:05Z","hook":{"action":"create","elapsed_seconds":5,"resource":{"addr":"null_resource.a","implied_provider":"null","module":"","resource":"null_resource.a","resource_key":null,"resource_name":"a","resource_type":"null_resource"}},"type":"apply_errored"}
{"@level":"info","@message":"null_resource.b: Creating...","@module":"terraform.ui","@timestamp":"1970-01-01T00:00:05Z","hook":{"action":"create","resource":{"addr":"null_resource.b","implied_provider":"null","module":"","resource":"null_resource.b","resource_key":null,"resource_name":"b","resource_type":"null_resource"}},"type":"apply_start"}
{"@level":"info","@message":"null_resource.b: Creation complete after 3s","@module":"terraform.ui","@timestamp":"1970-01-01T00:00:08Z","hook":{"action":"create","elapsed_seconds":3,"resource":{"addr":"null_resource.b","implied_provider":"null","module":"","resource":"null_resource.b","resource_key":null,"resource_name":"b","resource_type":"null_resource"}},"type":"apply_complete"}
{"@level":"error","@message":"Error: boom","@module":"terraform.ui","@timestamp":"1970-01-01T00:00:08Z","diagnostic":{"address":"null_resource.a","detail":"","severity":"error","summary":"boom"},"type":"diagnostic"}
{"@level":"info","@message":"Apply complete! Resources: 1 added, 0 changed, 0 destroyed.","@module":"terraform.ui","@timestamp":"1970-01-01T00:00:08Z","changes":{"add":1,"change":0,"operation":"apply","remove":0},"type":"change_summary"}
"#;

/// A plan of a replacement that destroys first, and a create.
const REPLACEMENT_AND_CREATE: &str =
    r#"{"format_version":"1.2","terraform_version":"1.9.0","resource_changes":[{"address":"null_resource.a","mode":"managed","type":"null_resource","name":"a","change":{"actions":["delete","create"]}},{"address":"null_resource.b","mode":"managed","type":"null_resource","name":"b","change":{"actions":["create"]}}]}"#;

/// An apply that starts with the year 1970.
fn options(workers: u8, capacity: u16) -> Options {
    Options {
        workers,
        capacity,
        start: Start::zero(),
        operation: Operation::Apply,
    }
}

/// The text before the first mark, and the text after it.
fn parted<'a>(rt: &impl Abort, text: &'a str, mark: &str) -> (&'a str, &'a str) {
    text.split_once(mark).expect(rt, mark)
}

/// The plan of a run, its script, and the stream of both.
fn parts_of<'a>(rt: &impl Abort, run: &'a str) -> (&'a str, &'a str, &'a str) {
    let (plan, rest) = parted(rt, run, "\n");
    let (script, stream) = parted(rt, rest, "\n");
    (plan, script, stream)
}

/// The word at that place of a row; empty if there is none.
fn cell(row: &str, place: usize) -> &str {
    row.split_whitespace().nth(place).unwrap_or("")
}

/// Leaks the value: a proof grows with each place at which something must be dropped.
fn leaked<'a, T: Drop + 'a>(rt: &impl Abort, alloc: Global, value: T) -> &'a T {
    let leaked = Box::new(alloc, value).expect(rt, "memory");
    &*Box::leak(leaked)
}

/// A plan that must be accepted.
fn plan_of(rt: &impl Abort, alloc: Global, text: &str) -> &'static Plan {
    let plan = read_plan(alloc, text.as_bytes());
    leaked(rt, alloc, plan.ok().expect(rt, text))
}

/// A script that must be accepted, or the empty one.
fn script_of(rt: &impl Abort, alloc: Global, text: &str, plan: &Plan) -> &'static Script {
    if text == NO_SCRIPT {
        return leaked(rt, alloc, Script::empty());
    }
    let script = read_script(alloc, text.as_bytes(), plan);
    leaked(rt, alloc, script.ok().expect(rt, text))
}

/// No hooks.
fn no_hooks(rt: &impl Abort, alloc: Global) -> &'static Registry {
    leaked(rt, alloc, Registry::new(alloc))
}

/// A sink with room for whatever comes.
fn memory(alloc: Global) -> MemorySink
    ensures { result.failures ≡ 0 }
{
    MemorySink::new(alloc, usize::MAX, None)
}

/// A sink that accepts so many bytes with each write, and so many in all, or any number.
fn limited(rt: &impl Abort, alloc: Global, per_write: usize, room: Option<usize>) -> MemorySink
    ensures { result.failures ≡ 0 }
{
    assert!(rt; per_write > 0);
    MemorySink::new(alloc, per_write, room)
}

/// The bytes of a script, if there is one.
fn script_bytes(script: &str) -> Option<&[u8]> {
    if script == NO_SCRIPT {
        None
    } else {
        Some(script.as_bytes())
    }
}

/// Applies plan and script, and stores the stream in memory. The contract of a run is long, so few
/// places call it.
fn apply_into_memory<G: Gate, R: Threads + Wait + Sync + Abort>(
    rt: &R,
    alloc: Global,
    plan: &str,
    script: &str,
    registry: &Registry,
    options: Options,
    gate: &G,
) -> (&'static MemorySink, Result<Report, Refusal>) {
    let (plan, script, sink) = (plan.as_bytes(), script_bytes(script), memory(alloc));
    let (sink, end) = apply_bytes(rt, alloc, plan, script, registry, options, sink, gate);
    (leaked(rt, alloc, sink), end)
}

/// The end of a run of what was read, as a run from bytes gives it.
fn end_of(end: Result<Report, Fault>) -> Result<Report, Refusal> {
    match end {
        Ok(report) => Ok(report),
        Err(fault) => Err(Refusal::Fault(fault)),
    }
}

/// Reads both texts and applies them, without hooks.
fn apply_texts<S: Sink + Drop, G: Gate, R: Threads + Wait + Sync + Abort>(
    rt: &R,
    alloc: Global,
    plan: &str,
    script: &str,
    options: Options,
    sink: S,
    gate: &G,
) -> (S, Result<Report, Refusal>)
    requires { S.failed sink < 2 ^ 64 - 1 }
{
    let plan = plan_of(rt, alloc, plan);
    let script = script_of(rt, alloc, script, plan);
    let registry = no_hooks(rt, alloc);
    assert!(rt; options.in_range());
    let (sink, end) = apply_stream(rt, alloc, plan, script, registry, options, sink, gate);
    (sink, end_of(end))
}

/// Reads and applies both texts, which must succeed. Returns the sink and the counts.
fn apply_plan<'a, S: Sink + Drop + 'a, G: Gate, R: Threads + Wait + Sync + Abort>(
    rt: &R,
    alloc: Global,
    plan: &str,
    script: &str,
    options: Options,
    sink: S,
    gate: &G,
) -> (&'a S, Counts)
    requires { S.failed sink < 2 ^ 64 - 1 }
{
    let (sink, end) = apply_texts(rt, alloc, plan, script, options, sink, gate);
    let report = end.ok().expect(rt, "an end that is well");
    (leaked(rt, alloc, sink), report.counts)
}

/// The report of a run.
fn report_of(counts: Counts, taken: u64, written: usize) -> Report {
    Report {
        counts,
        taken,
        written: written as u128,
    }
}

/// The end of a run whose sink failed.
fn failed(report: Report) -> Result<Report, Refusal> {
    let why = Why::Write;
    Err(Refusal::Fault(Fault { why, report }))
}

/// Fails if a run ended otherwise.
fn ends(
    rt: &impl Abort,
    name: &str,
    actual: Result<Report, Refusal>,
    wanted: Result<Report, Refusal>,
) {
    holds(rt, name, actual == wanted);
}

/// Fails unless the sink has the first bytes of the stream, as many as it had room for, and the run
/// ended with these counts. It must succeed with the whole stream, and fail with one failed write
/// otherwise.
fn has_written(
    rt: &impl Abort,
    sink: &MemorySink,
    stream: &str,
    room: usize,
    end: Result<Report, Refusal>,
    counts: Counts,
    taken: u64,
) {
    let front = stream.as_bytes().get(..room);
    holds(rt, "the front of the stream", Some(sink.bytes()) == front);
    let report = report_of(counts, taken, room);
    let (failures, wanted) = if room < stream.len() {
        (1, failed(report))
    } else {
        (0, Ok(report))
    };
    number_is(rt, "failed writes", sink.failures(), failures);
    ends(rt, stream, end, wanted);
}

/// Fails if the number differs.
fn number_is(rt: &impl Abort, name: &str, actual: u64, wanted: u64)
    ensures { actual ≡ wanted }
{
    assert!(rt; actual == wanted, "{name}: {actual}, not {wanted}");
}

/// Fails unless it holds.
fn holds(rt: &impl Abort, name: &str, is_so: bool) {
    assert!(rt; is_so, "{name}");
}

/// Fails if the text differs.
fn text_is(rt: &impl Abort, name: &str, actual: &str, wanted: &str) {
    assert!(rt; actual == wanted, "{name}: {actual}");
}

/// Fails if the counts of added and removed steps differ.
fn counts_are(rt: &impl Abort, actual: Counts, added: u64, removed: u64) {
    holds(rt, "counts", actual == counts(added, 0, removed, 0, 0));
}

/// Counts of steps.
fn counts(added: u64, changed: u64, removed: u64, failed: u64, halted: u64) -> Counts {
    Counts {
        added,
        changed,
        removed,
        failed,
        halted,
    }
}
