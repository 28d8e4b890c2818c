//! Plans that are applied in lanes: reports, refusals, and sinks that fail.

ghost use Rattle.std.specs.Prelude.{◌<◌, ◌-◌, ◌^◌};

use super::refusals::is_refused;
use super::*;

/// Applies plan and script in so many lanes.
fn apply_texts_in_lanes(
    rt: &impl Abort,
    alloc: Global,
    plan: &str,
    script: &str,
    lanes: u8,
    sink: MemorySink,
) -> (&'static MemorySink, Result<Report, Refusal>)
    requires { sink.failures < 2 ^ 64 - 1 }
{
    let (plan, script) = (plan.as_bytes(), script_bytes(script));
    let registry = no_hooks(rt, alloc);
    let (sink, end) = apply_bytes_in_lanes(
        alloc,
        plan,
        script,
        registry,
        lanes,
        Start::zero(),
        Operation::Apply,
        sink,
    );
    (leaked(rt, alloc, sink), end)
}

/// Applies a plan and a script that were read.
#[test]
fn a_plan_that_was_read_in_lanes(rt: HostRuntime) {
    let alloc = rt.alloc();
    let (plan, script, stream) = parts_of(&rt, ONE_CREATE);
    let plan = plan_of(&rt, alloc, plan);
    let script = script_of(&rt, alloc, script, plan);
    let (sink, end) = apply_in_lanes(
        alloc,
        plan,
        script,
        no_hooks(&rt, alloc),
        64,
        Start::zero(),
        Operation::Apply,
        memory(alloc),
    );
    let (sink, end) = (leaked(&rt, alloc, sink), end_of(end));
    has_written(
        &rt,
        sink,
        stream,
        stream.len(),
        end,
        counts(1, 0, 0, 0, 0),
        2,
    );
}

/// Fails unless so many lanes refuse the texts with this refusal and nothing is written.
fn lanes_refuse(
    rt: &impl Abort,
    alloc: Global,
    plan: &str,
    script: &str,
    lanes: u8,
    wanted: Refusal,
) {
    let (sink, end) = apply_texts_in_lanes(rt, alloc, plan, script, lanes, memory(alloc));
    is_refused(rt, plan, script, sink, end, wanted);
}

/// The plan is refused before the script, and the script before the number of lanes.
#[test]
fn refusals_in_lanes(rt: HostRuntime) {
    let alloc = rt.alloc();
    let (plan, _, _) = parts_of(&rt, ONE_CREATE);
    lanes_refuse(&rt, alloc, "[", "{", 0, Refusal::Plan(PlanError::NotJson));
    lanes_refuse(
        &rt,
        alloc,
        plan,
        "{",
        65,
        Refusal::Script(ScriptError::NotJson),
    );
    for lanes in [0, 65, 255] {
        lanes_refuse(&rt, alloc, plan, NO_SCRIPT, lanes, Refusal::Size);
    }
}

/// Whichever byte is the first that the sink refuses, the sink has all bytes before it and nothing
/// more, and all events are counted.
#[test]
fn fails_at_each_byte_in_lanes(rt: HostRuntime) {
    let alloc = rt.alloc();
    let (plan, script, stream) = parts_of(&rt, FAILED_DESTROY);
    for room in 0..stream.len() {
        let sink = limited(&rt, alloc, 7, Some(room));
        let (sink, end) = apply_texts_in_lanes(&rt, alloc, plan, script, 10, sink);
        has_written(&rt, sink, stream, room, end, counts(1, 0, 0, 1, 0), 5);
    }
}
