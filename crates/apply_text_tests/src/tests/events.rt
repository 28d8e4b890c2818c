//! Single lines of events and counts that no stream of one worker has.

use super::*;

/// An event of the first step of a change.
fn event_of(change: u32, what: What, at: u64) -> Event {
    Event {
        worker: 7,
        change,
        step: 0,
        what,
        at,
    }
}

/// Fails when the line of an event of the only change differs.
fn compare_event_line(
    rt: &impl Abort,
    alloc: Global,
    case: &str,
    plan: &str,
    script: &str,
    start: Start,
    latest: u64,
    event: &Event,
    wanted: &str,
) {
    let plan = plan_of(rt, alloc, plan);
    let script = script_of(rt, alloc, script, plan);
    let written = line_of(rt, alloc, plan, script, start, latest, event);
    compare_line(rt, case, written, wanted);
}

/// A replacement that destroys first.
const ONE_REPLACEMENT: &str =
    r#"{"format_version":"1.2","terraform_version":"1.9.0","resource_changes":[{"address":"null_resource.a","mode":"managed","type":"null_resource","name":"a","change":{"actions":["delete","create"]}}]}"#;

/// When the hook was asked, and the line of its halt.
const HALTS: &str =
    r#"before => {"@level":"error","@message":"Error: execution halted","@module":"terraform.ui","@timestamp":"1970-01-01T00:00:00Z","diagnostic":{"address":"null_resource.a","detail":"Hook 1 answered Halt before delete.","severity":"error","summary":"execution halted"},"type":"diagnostic"}
after => {"@level":"error","@message":"Error: execution halted","@module":"terraform.ui","@timestamp":"1970-01-01T00:00:00Z","diagnostic":{"address":"null_resource.a","detail":"Hook 0 answered Halt after delete.","severity":"error","summary":"execution halted"},"type":"diagnostic"}
after failed => {"@level":"error","@message":"Error: execution halted","@module":"terraform.ui","@timestamp":"1970-01-01T00:00:00Z","diagnostic":{"address":"null_resource.a","detail":"Hook 31 answered Halt after failed delete.","severity":"error","summary":"execution halted"},"type":"diagnostic"}"#;

/// A halt of a hook. The text gives its phase.
fn halt_of(rt: &impl Abort, text: &str) -> What {
    let (phase, hook) = match text {
        "before" => (Phase::Pre, 1),
        "after" => (Phase::PostDone, 0),
        "after failed" => (Phase::PostFailed, 31),
        _ => panic!(rt; "no phase: {text}"),
    };
    What::Halted { phase, hook }
}

/// Hooks halt a step before it, after it, and after its failure.
#[test]
fn hooks_halt(rt: HostRuntime) {
    let zero = Start::zero();
    for row in HALTS.lines() {
        let (halt, wanted) = parted(&rt, row, " => ");
        let event = event_of(0, halt_of(&rt, halt), 0);
        compare_event_line(
            &rt,
            rt.alloc(),
            halt,
            ONE_REPLACEMENT,
            NO_OUTCOMES,
            zero,
            0,
            &event,
            wanted,
        );
    }
}

const ONE_CREATE: &str =
    r#"{"format_version":"1.2","terraform_version":"1.9.0","resource_changes":[{"address":"null_resource.a","mode":"managed","type":"null_resource","name":"a","change":{"actions":["create"]}}]}"#;

/// A create that takes five seconds.
const FIVE_SECONDS: &str = r#"{"changes":[{"address":"null_resource.a","steps":[{"seconds":5}]}]}"#;

const LATER_LINE: &str =
    r#"{"@level":"info","@message":"null_resource.a: Creation complete after 5s","@module":"terraform.ui","@timestamp":"1970-01-01T00:01:05Z","hook":{"action":"create","elapsed_seconds":5,"resource":{"addr":"null_resource.a","implied_provider":"null","module":"","resource":"null_resource.a","resource_key":null,"resource_name":"a","resource_type":"null_resource"}},"type":"apply_complete"}"#;

/// A later event of another worker came before. The line has the timestamp of that later event.
#[test]
fn a_line_has_the_latest_moment(rt: HostRuntime) {
    let event = event_of(0, What::Complete(5), 5);
    compare_event_line(
        &rt,
        rt.alloc(),
        "5 seconds, told after 65",
        ONE_CREATE,
        FIVE_SECONDS,
        Start::zero(),
        65,
        &event,
        LATER_LINE,
    );
}

const DESTROYED: &str =
    r#"{"@level":"info","@message":"Destroy complete! Resources: 2 destroyed.","@module":"terraform.ui","@timestamp":"1970-01-01T00:00:00Z","changes":{"add":1,"change":3,"operation":"destroy","remove":2},"type":"change_summary"}"#;

/// When all objects are destroyed, the summary counts removals only.
#[test]
fn destroy(rt: HostRuntime) {
    let counts = Counts {
        added: 1,
        changed: 3,
        removed: 2,
        failed: 4,
        halted: 5,
    };
    let summary = summary_of(
        &rt,
        rt.alloc(),
        Start::zero(),
        0,
        Operation::Destroy,
        &counts,
    );
    compare_line(&rt, "a destroy", summary, DESTROYED);
}
