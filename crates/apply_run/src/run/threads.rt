//! Starts and joins the threads of the workers.

ghost use Rattle.std.specs.Prelude.{◌≡◌, ◌<◌, ◌≤◌, [], true, length, vec_capacity};
ghost use Rattle.apply_hooks.specs.Registry.{rules_of};
ghost use Rattle.apply_run.specs.Run.Threads.{EachAt, IsNewDrawer, IsNewSender, IsRun, IsThreadOf};
ghost use Rattle.apply_run.specs.Worker.Stopped.{IsStoppedWorker};

use crate::run::run_name::RunName;
use crate::worker::gate::Gate;
use crate::worker::job::WorkerJob;
use crate::worker::{StoppedWorker, work};
use apply_bus::{Drawer, Tx};
use std::marker::PhantomData;
use std::sync::Wait;
use std::thread::{Promise, PromisedHandle, Scope, Threads};

/// The promise of a worker's thread: the worker stops as one of the run with this name.
#[derive(Drop)]
pub(crate) struct WorkerPromise<K> {
    pub worker: u8,
    pub run: PhantomData<K>,
}

impl<K: RunName> Promise<StoppedWorker> for WorkerPromise<K> {
    ghost use Rattle.apply_run.specs.Worker.Stopped.{IsStoppedWorker};

    ghost kept_by = { λ p stopped. IsStoppedWorker K.work K.claims K.bus p.worker stopped };
}

/// The thread of a started worker.
pub(crate) type WorkerThread<K> = PromisedHandle<StoppedWorker, WorkerPromise<K>>;

/// Starts a thread for each drawer, with the sender of its worker, and returns whether all were
/// started. After a refused thread no other is started, and the rest of the drawers and senders is
/// dropped.
pub(crate) fn start_all<
    's,
    E: 's,
    K: RunName + Send + Sync + 's,
    G: Gate,
    R: Threads + Wait + Sync,
>(
    scope: &'s Scope<'s, E>,
    rt: &'s R,
    job: &'s WorkerJob<'s, G>,
    drawers: Vec<Drawer>,
    senders: Vec<Tx>,
    started: &mut Vec<WorkerThread<K>>,
) -> bool
    requires run { IsRun K.work K.claims job.now.plan.now job.now.script.now (rules_of job.now.registry.now) job.now.claims.now }
    requires drawers { EachAt (IsNewDrawer K.claims) drawers.items }
    requires senders { EachAt (IsNewSender K.bus) senders.items }
    requires none { started.old.items ≡ [] }
    requires room { length drawers.items ≤ vec_capacity started.old }
    ensures started { EachAt IsThreadOf started.new.items }
    ensures few { length started.new.items ≤ length drawers.items }
    ensures all { result ≡ true → length started.new.items ≡ length drawers.items }
{
    // Each thread borrows the parts of the job, one by one. Otherwise sharing a whole job among
    // threads would have to be proved here.
    let (plan, script, registry) = (job.plan, job.script, job.registry);
    let (gate, claims, start_gate) = (job.gate, job.claims, job.start_gate);
    let mut senders = senders.into_iter();
    for drawer in drawers {
        let Some(tx) = senders.next() else {
            return false;
        };
        let promise = WorkerPromise {
            worker: tx.worker(),
            run: PhantomData,
        };
        let thread = scope.spawn_with(
            promise,
            move ||
                requires run { IsRun K.work K.claims plan.now script.now (rules_of registry.now) claims.now }
                requires drawer { IsNewDrawer K.claims tx.worker drawer }
                requires sender { IsNewSender K.bus tx.worker tx }
                ensures { IsStoppedWorker K.work K.claims K.bus tx.worker result }
            {
                let job = WorkerJob {
                    plan: &*plan,
                    script: &*script,
                    registry: &*registry,
                    gate: &*gate,
                    claims: &*claims,
                    start_gate: &*start_gate,
                };
                work::<K, G, R>(rt, &job, drawer, tx)
            },
        );
        match thread {
            Ok(worker) => {
                let Ok(()) = started.push(worker) else {
                    unreachable!()
                };
            }
            Err(_) => return false,
        }
    }
    true
}

/// Joins the threads of workers, in their order.
pub(crate) fn join_all<K: RunName, R: Threads>(
    rt: &R,
    threads: Vec<WorkerThread<K>>,
    stopped: &mut Vec<StoppedWorker>,
)
    requires started { EachAt IsThreadOf threads.items }
    requires none { stopped.old.items ≡ [] }
    requires room { length threads.items ≤ vec_capacity stopped.old }
    ensures stopped { EachAt (IsStoppedWorker K.work K.claims K.bus) stopped.new.items }
    ensures all { length stopped.new.items ≡ length threads.items }
{
    for thread in threads {
        let Ok(()) = stopped.push(thread.join(rt)) else {
            unreachable!()
        };
    }
}
