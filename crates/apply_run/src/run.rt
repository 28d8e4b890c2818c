//! A run in threads: it starts the workers, joins them, and compares what they sent with what was
//! taken.

ghost use Rattle.std.specs.Prelude.{◌≡◌, ◌≤◌, [], length, vec_capacity, IfErr, IfOk};
ghost use Rattle.apply_hooks.specs.Registry.{rules_of};
ghost use Rattle.apply_run.specs.Run.Endpoints.{AreReady};
ghost use Rattle.apply_run.specs.Run.Finished.{IsFinishedRun, IsJoinedRun};
ghost use Rattle.apply_run.specs.Run.NotBegun.{GivesBack};
ghost use Rattle.apply_writer.specs.Stream.Counting.{IsNew};
ghost use Rattle.apply_writer.specs.Stream.WriterState.{writer_state};
ghost use Rattle.apply_run.specs.Run.Threads.{IsRun};

pub mod prepared;
pub mod reconciling;
pub mod run_name;
pub mod threads;

use crate::collector::{Collected, collect};
use crate::run::prepared::Endpoints;
use crate::run::reconciling::reconcile;
use crate::run::run_name::RunName;
use crate::run::threads::{WorkerThread, join_all, start_all};
use crate::worker::StoppedWorker;
use crate::worker::gate::Gate;
use crate::worker::job::WorkerJob;
use apply_bus::Taken;
use apply_writer::{FormLines, Sink, StreamWriter};
use std::alloc::Global;
use std::sync::Wait;
use std::thread;
use std::thread::{Scope, Threads};

/// A run that was given up before anything was taken. The stream is returned unchanged.
#[derive(Drop)]
pub(crate) enum NotBegun<S: Drop, F: Drop> {
    /// A thread was refused.
    NoThread(StreamWriter<S, F>),
    /// Memory was refused for the list of threads. The unused drawers, senders and receiver are
    /// returned too.
    OutOfMemory(StreamWriter<S, F>, Endpoints),
}

/// A run whose threads were joined.
#[derive(Drop)]
pub(crate) struct JoinedRun<S: Drop, F: Drop> {
    /// The stream, without its diagnostics and its tail.
    pub stream: StreamWriter<S, F>,
    /// What was taken from the bus.
    pub taken: Taken,
    /// What each worker returned, in the order of the workers.
    pub stopped: Vec<StoppedWorker>,
    /// Whether a take failed.
    pub lost: bool,
}

/// A joined run after the workers' events were compared with what was taken.
#[derive(Drop)]
pub(crate) struct FinishedRun<S: Drop, F: Drop> {
    /// The stream, without its diagnostics and its tail.
    pub stream: StreamWriter<S, F>,
    /// Whether all events of all workers were accepted.
    pub whole: bool,
}

/// Runs the workers in threads, collects their events in this thread, and compares both.
///
/// `Err` if a thread was refused, or memory for the list of threads. Then the stream is unchanged.
/// No worker has begun then, but only `start_gate` ensures that, and no clause states it.
pub(crate) fn run_workers<
    K: RunName + Send + Sync + 'static,
    S: Sink + Drop,
    F: FormLines,
    G: Gate,
    R: Threads + Wait + Sync,
>(
    rt: &R,
    alloc: Global,
    job: &WorkerJob<'_, G>,
    endpoints: Endpoints,
    stream: StreamWriter<S, F>,
) -> Result<FinishedRun<S, F>, NotBegun<S, F>>
    requires run { IsRun K.work K.claims job.now.plan.now job.now.script.now (rules_of job.now.registry.now) job.now.claims.now }
    requires endpoints { AreReady K.claims K.bus endpoints }
    requires stream { IsNew (writer_state S.bytes S.failed stream) }
    requires plan { (F.form stream.lines).plan ≡ job.now.plan.now }
    ensures finished { IfOk result (λ finished.
        IsFinishedRun S.bytes S.failed F.form K.work K.claims.workers stream finished) }
    ensures not_begun { IfErr result (λ not_begun. GivesBack stream endpoints not_begun) }
{
    let Ok(started) = Vec::with_capacity(alloc, endpoints.drawers.len()) else {
        return Err(NotBegun::OutOfMemory(stream, endpoints));
    };
    match run_threads::<K, S, F, G, R>(rt, job, endpoints, started, stream) {
        Ok(finished) => Ok(finished),
        Err(stream) => Err(NotBegun::NoThread(stream)),
    }
}

/// Runs the workers with a list for their threads, and compares what they sent with what was taken.
/// `Err` only if a thread was refused; then the stream is unchanged.
fn run_threads<
    K: RunName + Send + Sync + 'static,
    S: Sink + Drop,
    F: FormLines,
    G: Gate,
    R: Threads + Wait + Sync,
>(
    rt: &R,
    job: &WorkerJob<'_, G>,
    endpoints: Endpoints,
    started: Vec<WorkerThread<K>>,
    stream: StreamWriter<S, F>,
) -> Result<FinishedRun<S, F>, StreamWriter<S, F>>
    requires run { IsRun K.work K.claims job.now.plan.now job.now.script.now (rules_of job.now.registry.now) job.now.claims.now }
    requires endpoints { AreReady K.claims K.bus endpoints }
    requires stream { IsNew (writer_state S.bytes S.failed stream) }
    requires plan { (F.form stream.lines).plan ≡ job.now.plan.now }
    requires none { started.items ≡ [] }
    requires room { length endpoints.drawers.items ≤ vec_capacity started }
    ensures finished { IfOk result (λ finished.
        IsFinishedRun S.bytes S.failed F.form K.work K.claims.workers stream finished) }
    ensures not_begun { IfErr result (λ back. back ≡ stream) }
{
    let joined = thread::scope(
        thread::scope_env(),
        rt,
        move |scope| -> Result<JoinedRun<S, F>, StreamWriter<S, F>>
            requires run { IsRun K.work K.claims job.now.plan.now job.now.script.now (rules_of job.now.registry.now) job.now.claims.now }
            requires endpoints { AreReady K.claims K.bus endpoints }
            requires stream { IsNew (writer_state S.bytes S.failed stream) }
            requires none { started.items ≡ [] }
            requires room { length endpoints.drawers.items ≤ vec_capacity started }
            ensures joined { IfOk result (λ joined.
                IsJoinedRun S.bytes S.failed F.form K.work K.claims K.bus stream joined) }
            ensures not_begun { IfErr result (λ back. back ≡ stream) }
        { run_in_scope::<_, K, S, F, G, R>(scope, rt, job, endpoints, started, stream) },
    );
    match joined {
        Ok(
            JoinedRun {
                stream,
                taken,
                stopped,
                lost,
            },
        ) => {
            let whole = reconcile::<K>(job.claims, taken, stopped);
            Ok(FinishedRun {
                stream,
                whole: whole && !lost,
            })
        }
        Err(stream) => Err(stream),
    }
}

/// Runs the workers within a scope, and joins them.
fn run_in_scope<
    's,
    E: 's,
    K: RunName + Send + Sync + 's,
    S: Sink + Drop,
    F: FormLines,
    G: Gate,
    R: Threads + Wait + Sync,
>(
    scope: &'s Scope<'s, E>,
    rt: &'s R,
    job: &'s WorkerJob<'s, G>,
    endpoints: Endpoints,
    mut started: Vec<WorkerThread<K>>,
    stream: StreamWriter<S, F>,
) -> Result<JoinedRun<S, F>, StreamWriter<S, F>>
    requires run { IsRun K.work K.claims job.now.plan.now job.now.script.now (rules_of job.now.registry.now) job.now.claims.now }
    requires endpoints { AreReady K.claims K.bus endpoints }
    requires stream { IsNew (writer_state S.bytes S.failed stream) }
    requires none { started.items ≡ [] }
    requires room { length endpoints.drawers.items ≤ vec_capacity started }
    ensures joined { IfOk result (λ joined.
        IsJoinedRun S.bytes S.failed F.form K.work K.claims K.bus stream joined) }
    ensures not_begun { IfErr result (λ back. back ≡ stream) }
{
    let Endpoints {
        drawers,
        senders,
        rx,
        mut stopped,
    } = endpoints;
    let all = start_all(scope, rt, job, drawers, senders, &mut started);
    job.start_gate.announce(all);
    if !all {
        join_all(rt, started, &mut stopped);
        return Err(stream);
    }
    let Collected {
        stream,
        taken,
        lost,
    } = collect(rt, rx, stream);
    join_all(rt, started, &mut stopped);
    Ok(JoinedRun {
        stream,
        taken,
        stopped,
        lost,
    })
}
