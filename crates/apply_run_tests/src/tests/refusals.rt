//! Sizes that are refused, after plans and scripts that are refused, and the texts of refusals.

use super::*;
use std::fmt::Display;

/// Fails if the refusal differs, or the sink was written to or failed.
pub(super) fn is_refused(
    rt: &impl Abort,
    plan: &str,
    script: &str,
    sink: &MemorySink,
    end: Result<Report, Refusal>,
    wanted: Refusal,
) {
    ends(rt, plan, end, Err(wanted));
    holds(rt, script, sink.bytes().is_empty() && sink.failures() == 0);
}

/// Fails if the texts are not refused with this refusal, or anything was written.
fn refuses<R: Threads + Wait + Sync + Abort>(
    rt: &R,
    alloc: Global,
    plan: &str,
    script: &str,
    options: Options,
    wanted: Refusal,
) {
    let registry = no_hooks(rt, alloc);
    let (sink, end) = apply_into_memory(rt, alloc, plan, script, registry, options, &NoGate);
    is_refused(rt, plan, script, sink, end, wanted);
}

/// A number of workers, a capacity, and whether they are in range.
const SIZES: &str = "0 64 out
1 64 in
8 64 in
9 64 out
255 64 out
1 0 out
1 1 in
1 1024 in
1 1025 out
1 65535 out
0 0 out
8 1024 in
9 1025 out";

/// Fails if the sizes of the row are not checked as it states, or the plan is not refused if they
/// are out of range.
fn sizes_are<R: Threads + Wait + Sync + Abort>(rt: &R, alloc: Global, plan: &str, row: &str) {
    let workers = cell(row, 0).parse::<u8>().ok().expect(rt, row);
    let capacity = cell(row, 1).parse::<u16>().ok().expect(rt, row);
    let (options, wanted) = (options(workers, capacity), cell(row, 2));
    holds(rt, row, options.in_range() == (wanted == "in"));
    if wanted == "out" {
        refuses(rt, alloc, plan, NO_SCRIPT, options, Refusal::Size);
    }
}

#[test]
fn sizes_and_limits(rt: HostRuntime) {
    let (plan, _, _) = parts_of(&rt, ONE_CREATE);
    for row in SIZES.lines() {
        sizes_are(&rt, rt.alloc(), plan, row);
    }
}

/// A plan of two creates.
const TWO_CREATES: &str =
    r#"{"format_version":"1.2","resource_changes":[{"address":"a.a","mode":"managed","type":"a","name":"a","change":{"actions":["create"]}},{"address":"a.b","mode":"managed","type":"a","name":"b","change":{"actions":["create"]}}]}"#;

/// The first waits for the second.
const ONE_WAIT: &str = r#"{"changes":[{"address":"a.a","steps":[{"seconds":1,"after":["a.b"]}]}]}"#;

/// A plan with one change more than allowed.
fn too_many(rt: &impl Abort, alloc: Global) -> &'static str {
    let changes = "0,".repeat(alloc, 10_000).expect(rt, "memory");
    let changes = leaked(rt, alloc, changes).as_str();
    let plan = format!(in alloc;
        "{{\"format_version\":\"1.2\",\"resource_changes\":[{changes}0]}}"
    );
    leaked(rt, alloc, plan.expect(rt, "memory")).as_str()
}

/// Fails if nine workers do not refuse the texts with this refusal.
fn nine_refuse<R: Threads + Wait + Sync + Abort>(
    rt: &R,
    alloc: Global,
    plan: &str,
    script: &str,
    wanted: Refusal,
) {
    refuses(rt, alloc, plan, script, options(9, 64), wanted);
}

/// The sizes are checked after the plan, the script, and its dependencies.
#[test]
fn sizes_are_looked_at_last(rt: HostRuntime) {
    let alloc = rt.alloc();
    let (plan, _, _) = parts_of(&rt, ONE_CREATE);
    let no_json = Refusal::Plan(PlanError::NotJson);
    nine_refuse(&rt, alloc, "[", "{", no_json);
    let too_large = Refusal::Plan(PlanError::TooMany);
    nine_refuse(&rt, alloc, too_many(&rt, alloc), NO_SCRIPT, too_large);
    let no_script = Refusal::Script(ScriptError::NotJson);
    nine_refuse(&rt, alloc, plan, "{", no_script);
    nine_refuse(&rt, alloc, TWO_CREATES, ONE_WAIT, Refusal::Waits);
}

/// Fails if the error has another text.
fn shows<E: Display>(rt: &impl Abort, alloc: Global, error: &E, wanted: &str) {
    let text = leaked(rt, alloc, error.to_string(alloc).expect(rt, "memory"));
    text_is(rt, "error", text.as_str(), wanted);
}

/// The refusals that no run of the built program shows.
#[test]
fn errors_have_their_texts(rt: HostRuntime) {
    let alloc = rt.alloc();
    shows(&rt, alloc, &SinkFault, "the sink failed");
    shows(&rt, alloc, &Why::Bus, "the event bus failed");
    shows(&rt, alloc, &Refusal::Size, "the sizes are out of range");
    let (why, report) = (Why::Bus, report_of(counts(1, 2, 3, 4, 0), 5, 6));
    let lost = Fault { why, report };
    shows(&rt, alloc, &lost, "the event bus failed");
    shows(&rt, alloc, &Refusal::Fault(lost), "the event bus failed");
}
