//! Streams in Terraform's form, over outputs that fail, and the options of such a run that
//! `validate` takes too.

use super::*;
use apply_cli::{run_job, run_job_in_lanes};

/// A create, and an output that the plan does not know yet.
const PLAN: &str =
    r#"{"format_version":"1.2","terraform_version":"1.11.4","resource_changes":[{"address":"random_pet.animal","mode":"managed","type":"random_pet","name":"animal","change":{"actions":["create"],"after":{"id":"<pet>"}}}],"output_changes":{"pet":{"actions":["create"],"after_unknown":true}}}"#;

/// The stream of the create, which took four seconds.
const STREAM: &str =
    r#"{"@level":"info","@message":"Terraform 1.11.4","@module":"terraform.ui","@timestamp":"1970-01-01T00:00:00.000000Z","terraform":"1.11.4","type":"version","ui":"1.2"}
{"@level":"info","@message":"random_pet.animal: Plan to create","@module":"terraform.ui","@timestamp":"1970-01-01T00:00:00.000000Z","change":{"resource":{"addr":"random_pet.animal","module":"","resource":"random_pet.animal","implied_provider":"random","resource_type":"random_pet","resource_name":"animal","resource_key":null},"action":"create"},"type":"planned_change"}
{"@level":"info","@message":"random_pet.animal: Creating...","@module":"terraform.ui","@timestamp":"1970-01-01T00:00:00.000000Z","hook":{"resource":{"addr":"random_pet.animal","module":"","resource":"random_pet.animal","implied_provider":"random","resource_type":"random_pet","resource_name":"animal","resource_key":null},"action":"create"},"type":"apply_start"}
{"@level":"info","@message":"random_pet.animal: Creation complete after 4s [id=\u003cpet\u003e]","@module":"terraform.ui","@timestamp":"1970-01-01T00:00:04.000000Z","hook":{"resource":{"addr":"random_pet.animal","module":"","resource":"random_pet.animal","implied_provider":"random","resource_type":"random_pet","resource_name":"animal","resource_key":null},"action":"create","id_key":"id","id_value":"\u003cpet\u003e","elapsed_seconds":4},"type":"apply_complete"}
{"@level":"info","@message":"Apply complete! Resources: 1 added, 0 changed, 0 destroyed.","@module":"terraform.ui","@timestamp":"1970-01-01T00:00:04.000000Z","changes":{"add":1,"change":0,"import":0,"remove":0,"operation":"apply"},"type":"change_summary"}
{"@level":"info","@message":"Outputs: 1","@module":"terraform.ui","@timestamp":"1970-01-01T00:00:04.000000Z","outputs":{"pet":{"sensitive":false,"type":"string","value":"a\u0026b"}},"type":"outputs"}
"#;

/// A script that states the output, for a create of four seconds.
const SCRIPT: &str =
    r#"{"changes":[{"address":"random_pet.animal","steps":[{"seconds":4}]}],"outputs":{"pet":{"type":"string","value":"a&b"}}}"#;

/// A job in Terraform's form, with that output in its script.
fn job(rt: &impl Abort, alloc: Global) -> Job<'static, 'static> {
    Job {
        settings: leaked(rt, alloc, defaults(alloc)),
        form: Form::Terraform,
        command: Command::Saved,
        refresh: true,
        registry: no_hooks(rt, alloc),
        script: Some(SCRIPT.as_bytes()),
    }
}

/// The stream of one worker in Terraform's form, with that output.
fn streamed_by_worker<T: Threads + Wait + Sync + Abort>(
    rt: &T,
    alloc: Global,
    output: FailingWriter,
) -> Outcome {
    let (job, input, sink) = (job(rt, alloc), PLAN.as_bytes(), StdSink::new(output));
    let mut errors = Vec::new(alloc);
    let (sink, status) = run_job(rt, alloc, &job, input, sink, &mut errors);
    outcome_of(rt, alloc, status, sink.into_inner().taken, errors)
}

/// The stream of two lanes.
fn streamed_in_lanes(rt: &impl Abort, alloc: Global, output: FailingWriter) -> Outcome {
    let (job, input, sink) = (job(rt, alloc), PLAN.as_bytes(), StdSink::new(output));
    let mut errors = Vec::new(alloc);
    let (sink, status) = run_job_in_lanes(alloc, &job, 2, input, sink, &mut errors);
    outcome_of(rt, alloc, status, sink.into_inner().taken, errors)
}

/// Fails unless an output with so little room gets a prefix of the stream, and the status is 3.
fn front_is<T: Threads + Wait + Sync + Abort>(rt: &T, alloc: Global, room: usize) {
    let front = front_of(rt, STREAM, room);
    let output = with_room(alloc, 7, room);
    let outcome = streamed_by_worker(rt, alloc, output);
    outcome_is(rt, "a worker", outcome, 3, front, UNWRITTEN);
    let output = unflushed(alloc, room, ErrorKind::BrokenPipe);
    let outcome = streamed_in_lanes(rt, alloc, output);
    outcome_is(rt, "two lanes", outcome, 3, front, "");
}

#[test]
fn an_output_that_fails_has_a_front_of_the_stream(rt: HostRuntime) {
    for room in (0..STREAM.len()).step_by(97) {
        front_is(&rt, rt.alloc(), room);
    }
}

/// Fails unless a refused plan is reported with these options of `validate`, after those of lanes.
fn options_are(rt: &impl Abort, alloc: Global, command: Command, refresh: bool, options: &str) {
    let mut job = job(rt, alloc);
    job.command = command;
    job.refresh = refresh;
    let (sink, mut errors) = (StdSink::new(Vec::new(alloc)), Vec::new(alloc));
    let (sink, status) = run_job_in_lanes(alloc, &job, 2, b"5".as_slice(), sink, &mut errors);
    let outcome = outcome_of(rt, alloc, status, sink.into_inner(), errors);
    let wanted = format!(in alloc;
        "applystream: the plan is not a plan of format 1.x\napplystream: applystream validate --parallelism 2{options} says where and what\n"
    );
    let wanted = leaked_text(rt, alloc, wanted.expect(rt, "memory"));
    outcome_is(rt, options, outcome, 2, "", wanted);
}

#[test]
fn a_refused_plan_is_reported_with_the_command(rt: HostRuntime) {
    let alloc = rt.alloc();
    let none = " --form terraform";
    options_are(&rt, alloc, Command::Saved, true, none);
    options_are(&rt, alloc, Command::Saved, false, none);
    options_are(&rt, alloc, Command::Plan, true, " --command plan");
    options_are(&rt, alloc, Command::Apply, true, " --command apply");
    let unrefreshed = " --command destroy --refresh false";
    options_are(&rt, alloc, Command::Destroy, false, unrefreshed);
}
