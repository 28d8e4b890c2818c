//! Applies a plan with workers in threads.

ghost use Rattle.std.specs.Prelude.{◌≡◌, ◌<◌, ◌≤◌, ◌-◌, ◌^◌, length, IfErr, IfOk};
ghost use Rattle.apply_hooks.specs.Registry.{rules_of};
ghost use Rattle.apply_plan.specs.Plan.SavedPlan.{max_changes};
ghost use Rattle.apply_run.specs.Options.{IsInRange};
ghost use Rattle.apply_run.specs.Run.{by_workers, HasFailed, HasFailedBy, HasStreamed, HasStreamedBy, sink_state};
ghost use Rattle.apply_run.specs.Run.Endpoints.{AreReady};
ghost use Rattle.apply_run.specs.Run.Finished.{IsFinishedRun};
ghost use Rattle.apply_run.specs.Run.NotBegun.{GivesBack};
ghost use Rattle.apply_writer.specs.Stream.Counting.{IsNew};
ghost use Rattle.apply_writer.specs.Stream.WriterState.{writer_state};

use crate::options::Options;
use crate::run::prepared::Prepared;
use crate::run::{FinishedRun, NotBegun, run_workers};
use crate::worker::gate::Gate;
use crate::worker::job::WorkerJob;
use crate::worker::start_gate::StartGate;
use apply_hooks::Registry;
use apply_plan::{Plan, Script};
use apply_writer::{Fault, FormLines, PlainLines, Report, Sink, StreamWriter, Why};
use std::alloc::Global;
use std::marker::Brand;
use std::sync::Wait;
use std::thread::Threads;

/// Applies a plan with workers in threads, and writes the stream of their events (Machine-Readable
/// UI). The script states how each step goes; a step without an entry succeeds after 0 seconds.
///
/// The version comes first. Hook messages are written while the workers run, in the order in which
/// they are taken. Diagnostics and the summary follow once all workers have ended.
///
/// Every answer returns the sink. It is `Ok` if the whole stream was written. Otherwise it is `Err`
/// with the cause and the report:
///
/// - `Why::Bus`: an event or a close was lost between a worker and this thread, since a take failed
///   or a send came back. No clause rules that out. Each event that was taken is one of the plan.
/// - `Why::Workers`: a thread was refused. Nothing was taken or written. No worker has begun, but
///   no clause states that.
/// - `Why::Memory`: memory was refused. Before the threads started, nothing was taken or written.
///   For a line, or to store a diagnostic: all events were taken, but that line and all later ones
///   are missing.
/// - `Why::Write`: the sink failed, and nothing more was written to it. All events were taken.
///
/// After `Why::Bus` the sink has no diagnostics. After `Why::Memory` it has none of a step whose
/// earlier lines are missing.
pub fn apply_stream<'a, S: Sink + Drop, G: Gate, R: Threads + Wait + Sync>(
    rt: &R,
    alloc: Global,
    plan: &'a Plan,
    script: &'a Script,
    registry: &Registry,
    options: Options,
    sink: S,
    gate: &G,
) -> (S, Result<Report, Fault>)
    requires sizes { IsInRange options }
    requires failures { S.failed sink < 2 ^ 64 - 1 }

    ensures ok { IfOk result.1 (λ report. HasStreamed
        (record { plan = plan.now; script = script.now; hooks = rules_of registry.now }) options report
        (sink_state S.bytes S.failed sink) (sink_state S.bytes S.failed result.0)) }

    ensures err { IfErr result.1 (λ fault. HasFailed fault.why
        (record { plan = plan.now; script = script.now; hooks = rules_of registry.now }) options fault.report
        (sink_state S.bytes S.failed sink) (sink_state S.bytes S.failed result.0)) }
{
    let Ok(lines) = PlainLines::new(alloc, plan, script, options.start, options.operation) else {
        return (sink, Err(Fault::at_once(Why::Memory)));
    };
    apply_in_form(
        rt, alloc, plan, script, registry, options, lines, sink, gate,
    )
}

/// Does what `apply_stream` does, with lines in any form. `lines` must be made for this plan.
pub fn apply_in_form<S: Sink + Drop, F: FormLines, G: Gate, R: Threads + Wait + Sync>(
    rt: &R,
    alloc: Global,
    plan: &Plan,
    script: &Script,
    registry: &Registry,
    options: Options,
    lines: F,
    sink: S,
    gate: &G,
) -> (S, Result<Report, Fault>)
    requires sizes { IsInRange options }
    requires failures { S.failed sink < 2 ^ 64 - 1 }
    requires plan { (F.form lines).plan ≡ plan.now }

    ensures ok { IfOk result.1 (λ report. HasStreamedBy (by_workers options) (F.form lines)
        (record { plan = plan.now; script = script.now; hooks = rules_of registry.now }) report
        (sink_state S.bytes S.failed sink) (sink_state S.bytes S.failed result.0)) }

    ensures err { IfErr result.1 (λ fault. HasFailedBy fault.why (by_workers options) (F.form lines)
        (record { plan = plan.now; script = script.now; hooks = rules_of registry.now }) fault.report
        (sink_state S.bytes S.failed sink) (sink_state S.bytes S.failed result.0)) }
{
    let Ok(prepared) = Prepared::new(alloc, options, plan.len()) else {
        return (sink, Err(Fault::at_once(Why::Memory)));
    };
    let stream = StreamWriter::new(alloc, lines, sink);
    let finished = run_prepared::<S, F, G, R>(
        rt, alloc, plan, script, registry, gate, prepared, stream,
    );
    match finished {
        Ok(FinishedRun { stream, whole }) => {
            if whole {
                stream.end()
            } else {
                let (sink, fault) = stream.give_up(Why::Bus);
                (sink, Err(fault))
            }
        }
        Err(NotBegun::NoThread(stream)) => {
            (stream.into_sink(), Err(Fault::at_once(Why::Workers)))
        }
        Err(NotBegun::OutOfMemory(stream, _endpoints)) => {
            (stream.into_sink(), Err(Fault::at_once(Why::Memory)))
        }
    }
}

/// Runs the workers with what was prepared, and drops it after they have ended.
fn run_prepared<S: Sink + Drop, F: FormLines, G: Gate, R: Threads + Wait + Sync>(
    rt: &R,
    alloc: Global,
    plan: &Plan,
    script: &Script,
    registry: &Registry,
    gate: &G,
    prepared: Prepared,
    stream: StreamWriter<S, F>,
) -> Result<FinishedRun<S, F>, NotBegun<S, F>>
    requires limit { prepared.claims.limit ≡ length plan.now.changes }
    requires few { length plan.now.changes ≤ max_changes }
    requires endpoints { AreReady prepared.claims prepared.endpoints.rx.bus prepared.endpoints }
    requires stream { IsNew (writer_state S.bytes S.failed stream) }
    requires plan { (F.form stream.lines).plan ≡ plan.now }

    ensures finished { IfOk result (λ finished. IsFinishedRun S.bytes S.failed F.form
        (record { plan = plan.now; script = script.now; hooks = rules_of registry.now }) prepared.claims.workers stream finished) }

    ensures not_begun { IfErr result (λ not_begun. GivesBack stream prepared.endpoints not_begun) }
{
    let Prepared { claims, endpoints } = prepared;
    let start_gate = StartGate::new();
    let job = WorkerJob {
        plan,
        script,
        registry,
        gate,
        claims: &claims,
        start_gate: &start_gate,
    };
    run_workers::<Brand, S, F, G, R>(rt, alloc, &job, endpoints, stream)
}
