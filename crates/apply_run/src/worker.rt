//! A worker: it draws changes and sends their events.

ghost use Rattle.std.specs.Prelude.{◌≡◌, ◌<◌, ◌≤◌, ◌+◌, ◌++◌, [], true, length, All, IfSome, List};
ghost use mathlib.Core.List.{IsPrefix};
ghost use Rattle.apply_events.specs.declared.event.Event.{Event};
ghost use Rattle.apply_events.specs.ChangeEvents.{change_events, span_of};
ghost use Rattle.apply_events.specs.Fits.{latest_second, max_span};
ghost use Rattle.apply_events.specs.WorkerEvents.{worker_events};
ghost use Rattle.apply_plan.specs.Plan.SavedPlan.{max_changes};
ghost use Rattle.apply_hooks.specs.Registry.{rules_of};
ghost use Rattle.apply_run.specs.Worker.Drawn.{IsDrawn};
ghost use Rattle.apply_events.specs.Fits.{IsOfPlan};
ghost use Rattle.apply_run.specs.Worker.WorkerJob.{work_of};
ghost use Rattle.apply_run.specs.Run.Threads.{IsNewDrawer, IsNewSender, IsRun};
ghost use Rattle.apply_run.specs.Worker.Stopped.{IsStoppedWorker};

pub mod gate;
pub mod job;
pub mod start_gate;

use crate::run::run_name::RunName;
use crate::worker::gate::Gate;
use crate::worker::job::WorkerJob;
use apply_bus::{Closed, Drawer, Tx};
use apply_events::{
    Runner, a_further_change_comes_after, a_rising_list_fits_below_its_limit,
    a_rising_list_rises_on,
};
use std::sync::Wait;

/// What a worker returns when it stops: its drawer and its sender.
#[derive(Drop)]
pub(crate) struct StoppedWorker {
    pub drawer: Drawer,
    pub sender: SenderEnd,
}

/// The sender of a worker that has stopped.
#[derive(Drop)]
pub(crate) enum SenderEnd {
    /// The sender was closed: the worker has sent all of its events.
    Closed(Closed),
    /// The sender was not closed.
    Open(Tx),
}

/// Waits at the start gate, draws changes until none is left, and sends their events. Takes no
/// memory of the heap.
pub(crate) fn work<K: RunName, G: Gate, R: Wait>(
    rt: &R,
    job: &WorkerJob<'_, G>,
    mut drawer: Drawer,
    mut tx: Tx,
) -> StoppedWorker
    requires run { IsRun K.work K.claims job.now.plan.now job.now.script.now (rules_of job.now.registry.now)
        job.now.claims.now }
    requires drawer { IsNewDrawer K.claims tx.worker drawer }
    requires sender { IsNewSender K.bus tx.worker tx }
    ensures { IsStoppedWorker K.work K.claims K.bus tx.worker result }
{
    let sender = if job.start_gate.wait(rt) && apply_all(rt, job, &mut drawer, &mut tx) {
        match tx.close(rt) {
            Ok(closed) => SenderEnd::Closed(closed),
            Err(tx) => SenderEnd::Open(tx),
        }
    } else {
        SenderEnd::Open(tx)
    };
    StoppedWorker { drawer, sender }
}

/// Draws changes until none is left, and sends their events. `false` if an event came back: then
/// nothing more was sent.
fn apply_all<G: Gate, R: Wait>(
    rt: &R,
    job: &WorkerJob<'_, G>,
    drawer: &mut Drawer,
    tx: &mut Tx,
) -> bool
    requires claims { drawer.old.claims ≡ job.now.claims.now }
    requires limit { job.now.claims.now.limit ≡ length job.now.plan.now.changes }
    requires few { job.now.claims.now.limit ≤ max_changes }
    requires fresh { (drawer.old.drawn ≡ []) × (tx.old.sent ≡ []) }
    ensures sender { (tx.new.bus ≡ tx.old.bus) × (tx.new.worker ≡ tx.old.worker) }
    ensures drawer { (drawer.new.claims ≡ drawer.old.claims) × (drawer.new.worker ≡ drawer.old.worker) }
    ensures whole { result ≡ true → (drawer.new.met_none ≡ true)
        × (tx.new.sent ≡ worker_events (work_of job.now) tx.old.worker drawer.new.drawn) }
    ensures part { IsPrefix tx.new.sent (worker_events (work_of job.now) tx.old.worker drawer.new.drawn) }
    ensures drawn { IsDrawn job.now.claims.now.limit drawer.new.drawn }
    ensures fits { All (IsOfPlan job.now.plan.now) tx.new.sent }
{
    // The drawn numbers rise and stay below the limit. So the loop ends, and each change begins
    // early enough.
    a_rising_list_rises_on();
    a_rising_list_fits_below_its_limit();
    a_further_change_comes_after();
    let mut at = 0;
    while let Some(change) = job.claims.draw(drawer) {
        match apply_change(rt, job, change, at, tx) {
            Some(end) => at = end,
            None => return false,
        }
    }
    true
}

/// Sends the events of a change that begins `at` seconds after the start, and returns when it ends.
/// `None` if an event came back: then nothing more was sent.
fn apply_change<G: Gate, R: Wait>(
    rt: &R,
    job: &WorkerJob<'_, G>,
    change: u32,
    at: u64,
    tx: &mut Tx,
) -> Option<u64>
    requires change { change < length job.now.plan.now.changes }
    requires in_time { at + max_span ≤ latest_second }
    ensures sender { (tx.new.bus ≡ tx.old.bus) × (tx.new.worker ≡ tx.old.worker) }
    ensures whole { IfSome result (λ end. (end ≡ at + span_of (work_of job.now) change) × (end ≤ at + max_span)
        × (tx.new.sent ≡ tx.old.sent ++ change_events (work_of job.now) tx.old.worker change at)) }
    ensures part { (part : List Event) × (tx.new.sent ≡ tx.old.sent ++ part)
        × IsPrefix part (change_events (work_of job.now) tx.old.worker change at)
        × All (IsOfPlan job.now.plan.now) part }
{
    let worker = tx.worker();
    let mut runner = Runner::start(job.plan, job.script, job.registry, worker, change, at);
    loop {
        if let Some(step) = runner.begins() {
            job.gate.pass(worker, change, step);
        }
        let Some(event) = runner.next() else {
            return Some(runner.ended_at());
        };
        let Ok(()) = tx.send(rt, event) else {
            return None;
        };
    }
}
