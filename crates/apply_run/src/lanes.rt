//! Applies a plan in lanes: changes run at once in the stream's own time, and no thread is started.

ghost use Rattle.std.specs.Prelude.{◌≡◌, ◌<◌, ◌-◌, ◌^◌, ◌↔◌, IfErr, IfOk, IsTrue};
ghost use Rattle.apply_hooks.specs.Registry.{rules_of};
ghost use Rattle.apply_events.specs.Lanes.{AreLanes};
ghost use Rattle.apply_events.specs.Lanes.ToCome.{to_come, emitted_count, work_of};
ghost use Rattle.apply_run.specs.Lanes.{HasFailedInLanes, HasStreamedInLanes};
ghost use Rattle.apply_run.specs.Run.{HasFailedBy, HasStreamedBy, sink_state};
ghost use Rattle.apply_run.specs.Schedule.{InLanes};
ghost use Rattle.apply_writer.specs.Stream.Counting.{CountsFit, IsNew};
ghost use Rattle.apply_writer.specs.Stream.WriterState.{IsSameStream, HasAcceptedSince, writer_state};

use apply_events::{Lanes, MAX_LANES, there_is_a_time_line};
use apply_hooks::Registry;
use apply_plan::{Plan, Script};
use apply_text::{Operation, Start};
use apply_writer::{Fault, FormLines, PlainLines, Report, Sink, StreamWriter, Why};
use std::alloc::Global;

/// Applies a plan in 1 to 64 lanes, like `terraform apply -parallelism`, and writes the stream
/// (Machine-Readable UI). The script states how each step goes; a step without an entry succeeds
/// after 0 seconds.
///
/// A lane takes up a whole change. If the change's second step states dependencies, a lane takes up
/// each of its steps separately. A step waits for its dependencies and for the step before it in
/// its change.
///
/// What is ready first starts first; among equals, the plan's order decides. The lane that is free
/// first takes it; among equals, the lowest lane. A step is skipped if it waits for a step that
/// fails, is halted or never starts.
///
/// The version comes first. Hook messages follow in the order of time, lower lanes first among
/// equals. Then come diagnostics and the summary.
///
/// The same plan, script, hooks and number of lanes give the same bytes. No thread is started, and
/// the call waits for nothing.
///
/// Every answer returns the sink. It is `Ok` if the whole stream was written. Otherwise it is `Err`
/// with the cause and the report:
///
/// - `Why::Memory`: memory was refused. Before the first line, nothing was counted or written. For
///   a line, or to store a diagnostic: all events were counted, but that line and all later ones
///   are missing.
/// - `Why::Write`: the sink failed, and nothing more was written to it. All events were counted.
pub fn apply_in_lanes<'a, S: Sink + Drop>(
    alloc: Global,
    plan: &'a Plan,
    script: &'a Script,
    registry: &'a Registry,
    lanes: u8,
    start: Start,
    operation: Operation,
    sink: S,
) -> (S, Result<Report, Fault>)
    requires lanes { AreLanes lanes }
    requires failures { S.failed sink < 2 ^ 64 - 1 }

    ensures ok { IfOk result.1 (λ report. HasStreamedInLanes
        (record { plan = plan.now; script = script.now; hooks = rules_of registry.now }) lanes start operation report
        (sink_state S.bytes S.failed sink) (sink_state S.bytes S.failed result.0)) }

    ensures err { IfErr result.1 (λ fault. HasFailedInLanes fault.why
        (record { plan = plan.now; script = script.now; hooks = rules_of registry.now }) lanes start operation fault.report
        (sink_state S.bytes S.failed sink) (sink_state S.bytes S.failed result.0)) }
{
    let Ok(lines) = PlainLines::new(alloc, plan, script, start, operation) else {
        return (sink, Err(Fault::at_once(Why::Memory)));
    };
    apply_lanes_in_form(alloc, plan, script, registry, lanes, lines, sink)
}

/// Does what `apply_in_lanes` does, with lines in any form. `lines` must be made for this plan.
pub fn apply_lanes_in_form<S: Sink + Drop, F: FormLines>(
    alloc: Global,
    plan: &Plan,
    script: &Script,
    registry: &Registry,
    lanes: u8,
    lines: F,
    sink: S,
) -> (S, Result<Report, Fault>)
    requires lanes { AreLanes lanes }
    requires failures { S.failed sink < 2 ^ 64 - 1 }
    requires plan { (F.form lines).plan ≡ plan.now }

    ensures ok { IfOk result.1 (λ report. HasStreamedBy (InLanes lanes) (F.form lines)
        (record { plan = plan.now; script = script.now; hooks = rules_of registry.now }) report
        (sink_state S.bytes S.failed sink) (sink_state S.bytes S.failed result.0)) }

    ensures err { IfErr result.1 (λ fault. HasFailedBy fault.why (InLanes lanes) (F.form lines)
        (record { plan = plan.now; script = script.now; hooks = rules_of registry.now }) fault.report
        (sink_state S.bytes S.failed sink) (sink_state S.bytes S.failed result.0)) }
{
    there_is_a_time_line();
    let Ok(lanes) = Lanes::start(alloc, plan, script, registry, lanes) else {
        return (sink, Err(Fault::at_once(Why::Memory)));
    };
    let stream = StreamWriter::new(alloc, lines, sink);
    write_all_events(lanes, stream).end()
}

/// Writes the head of the stream, and accepts all events of the lanes.
fn write_all_events<S: Sink + Drop, F: FormLines>(
    mut lanes: Lanes<'_>,
    mut stream: StreamWriter<S, F>,
) -> StreamWriter<S, F>
    requires none_emitted { emitted_count lanes ≡ 0 }
    requires is_new { IsNew (writer_state S.bytes S.failed stream) }
    requires plan { (F.form stream.lines).plan ≡ (work_of lanes).plan }
    ensures same { IsSameStream F.form stream result }
    ensures accepted { HasAcceptedSince S.bytes S.failed F.form stream (to_come lanes.entry) result }
    ensures counts_fit { CountsFit (F.form result.lines).plan (writer_state S.bytes S.failed result) }
{
    stream.write_head();
    while let Some(event) = lanes.next() {
        stream.accept(&event);
    }
    stream
}

/// Whether there are 1 to 64 lanes.
pub fn are_lanes(lanes: u8) -> bool
    ensures { IsTrue result ↔ AreLanes lanes }
{
    1 <= lanes && lanes <= MAX_LANES
}
