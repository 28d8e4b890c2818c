//! Runs in lanes.

use super::*;
use apply_cli::run_in_lanes;

/// Fails unless the run in lanes was refused with this error, and nothing was printed.
pub(super) fn lanes_fail(
    rt: &impl Abort,
    alloc: Global,
    case: &str,
    outcome: Outcome,
    lanes: u8,
    fault: &str,
) {
    let end = match end_of(fault).strip_prefix("\napplystream: applystream validate") {
        Some(rest) => {
            let end = format!(in alloc;
                "\napplystream: applystream validate --parallelism {lanes}{rest}"
            );
            leaked_text(rt, alloc, end.expect(rt, "memory"))
        }
        None => "\n",
    };
    status_is(rt, case, outcome.status, 2);
    text_is(rt, case, outcome.printed, "");
    line_is(rt, case, outcome.errors, fault, end);
}

/// Two creates.
const CREATES: &str =
    r#"{"format_version":"1.2","terraform_version":"1.9.0","resource_changes":[{"address":"null_resource.a","mode":"managed","type":"null_resource","name":"a","change":{"actions":["create"]}},{"address":"null_resource.b","mode":"managed","type":"null_resource","name":"b","change":{"actions":["create"]}}]}"#;

/// A script: the first create takes longer, and fails.
const SCRIPT: &str =
    r#"{"changes":[{"address":"null_resource.a","steps":[{"seconds":4,"failed":{"summary":"boom"}}]},{"address":"null_resource.b","steps":[{"seconds":2,"id":"7"}]}]}"#;

/// The stream of both, which run at once.
const STREAM: &str =
    r#"{"@level":"info","@message":"Terraform 1.9.0","@module":"terraform.ui","@timestamp":"1970-01-01T00:00:00Z","terraform":"1.9.0","type":"version","ui":"1.0"}
{"@level":"info","@message":"null_resource.a: Creating...","@module":"terraform.ui","@timestamp":"1970-01-01T00:00:00Z","hook":{"action":"create","resource":{"addr":"null_resource.a","implied_provider":"null","module":"","resource":"null_resource.a","resource_key":null,"resource_name":"a","resource_type":"null_resource"}},"type":"apply_start"}
{"@level":"info","@message":"null_resource.b: Creating...","@module":"terraform.ui","@timestamp":"1970-01-01T00:00:00Z","hook":{"action":"create","resource":{"addr":"null_resource.b","implied_provider":"null","module":"","resource":"null_resource.b","resource_key":null,"resource_name":"b","resource_type":"null_resource"}},"type":"apply_start"}
{"@level":"info","@message":"null_resource.b: Creation complete after 2s [id=7]","@module":"terraform.ui","@timestamp":"1970-01-01T00:00:02Z","hook":{"action":"create","elapsed_seconds":2,"id_key":"id","id_value":"7","resource":{"addr":"null_resource.b","implied_provider":"null","module":"","resource":"null_resource.b","resource_key":null,"resource_name":"b","resource_type":"null_resource"}},"type":"apply_complete"}
{"@level":"info","@message":"null_resource.a: Creation errored after 4s","@module":"terraform.ui","@timestamp":"1970-01-01T00:00:04Z","hook":{"action":"create","elapsed_seconds":4,"resource":{"addr":"null_resource.a","implied_provider":"null","module":"","resource":"null_resource.a","resource_key":null,"resource_name":"a","resource_type":"null_resource"}},"type":"apply_errored"}
{"@level":"error","@message":"Error: boom","@module":"terraform.ui","@timestamp":"1970-01-01T00:00:04Z","diagnostic":{"address":"null_resource.a","detail":"","severity":"error","summary":"boom"},"type":"diagnostic"}
{"@level":"info","@message":"Apply complete! Resources: 1 added, 0 changed, 0 destroyed.","@module":"terraform.ui","@timestamp":"1970-01-01T00:00:04Z","changes":{"add":1,"change":0,"operation":"apply","remove":0},"type":"change_summary"}
"#;

/// Runs an input in so many lanes, with this output and these errors.
fn run_at_once<R: Read + Drop, W: Write + Drop>(
    rt: &impl Abort,
    alloc: Global,
    lanes: u8,
    script: &str,
    input: R,
    output: W,
    errors: &mut Vec<u8>,
) -> (W, u8) {
    let settings = leaked(rt, alloc, defaults(alloc));
    let (registry, sink) = (no_hooks(rt, alloc), StdSink::new(output));
    let script = script_bytes(script);
    let (sink, status) = run_in_lanes(
        alloc, settings, lanes, registry, script, input, sink, errors,
    );
    (sink.into_inner(), status)
}

/// Runs an input in so many lanes, with its output in memory.
pub(super) fn run_lanes<R: Read + Drop>(
    rt: &impl Abort,
    alloc: Global,
    lanes: u8,
    script: &str,
    input: R,
) -> Outcome {
    let mut errors = Vec::new(alloc);
    let output = Vec::new(alloc);
    let (printed, status) = run_at_once(rt, alloc, lanes, script, input, output, &mut errors);
    outcome_of(rt, alloc, status, printed, errors)
}

/// Fails if so many lanes do not refuse the texts with this error.
fn is_refused(rt: &impl Abort, alloc: Global, lanes: u8, plan: &str, script: &str, fault: &str) {
    let outcome = run_lanes(rt, alloc, lanes, script, plan.as_bytes());
    lanes_fail(rt, alloc, fault, outcome, lanes, fault);
}

/// The number of lanes is checked last.
fn lanes_are_looked_at_last(rt: &impl Abort, alloc: Global, lanes: u8) {
    let sizes = "the sizes are out of range";
    let plan = CREATES;
    is_refused(rt, alloc, lanes, plan, NO_SCRIPT, sizes);
    is_refused(rt, alloc, lanes, plan, "{", "the script is not JSON");
    is_refused(rt, alloc, lanes, "", "{", "the plan is not JSON");
}

/// The plan is checked before the script, and both before the lanes.
#[test]
fn what_is_refused_in_lanes_is_refused_in_its_order(rt: HostRuntime) {
    let alloc = rt.alloc();
    for lanes in [0, 65, 255] {
        lanes_are_looked_at_last(&rt, alloc, lanes);
    }
}

/// Runs both creates at once into an output that fails.
fn run_to_failure(rt: &impl Abort, alloc: Global, output: FailingWriter) -> Outcome {
    let mut errors = Vec::new(alloc);
    let input = CREATES.as_bytes();
    let (output, status) = run_at_once(rt, alloc, 2, SCRIPT, input, output, &mut errors);
    outcome_of(rt, alloc, status, output.taken, errors)
}

/// Fails unless an output with so little room gets a prefix of the stream, and the status is 3.
fn front_is(rt: &impl Abort, alloc: Global, room: usize) {
    let outcome = run_to_failure(rt, alloc, with_room(alloc, 7, room));
    let front = front_of(rt, STREAM, room);
    outcome_is(rt, "a front", outcome, 3, front, UNWRITTEN);
}

/// Whichever byte is the first that the output refuses, it has all bytes before it and nothing
/// more. Some places of each line are tested.
#[test]
fn an_output_that_fails_in_lanes_is_reported(rt: HostRuntime) {
    let (alloc, stream) = (rt.alloc(), STREAM);
    let whole = stream.len();
    for room in (0..whole).step_by(61) {
        front_is(&rt, alloc, room);
    }
    let outcome = run_to_failure(&rt, alloc, with_room(alloc, 7, whole));
    outcome_is(&rt, "all of it", outcome, 1, stream, "");
    let outcome = run_to_failure(&rt, alloc, unflushed(alloc, whole, ErrorKind::StorageFull));
    outcome_is(&rt, "no flush", outcome, 3, stream, UNWRITTEN);
}
