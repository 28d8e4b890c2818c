//! What a run allocates before its threads start.

ghost use Rattle.std.specs.Prelude.{◌≡◌, IfErr, IfOk};
ghost use Rattle.apply_bus.specs.Bus.{new_senders};
ghost use Rattle.apply_run.specs.Run.Endpoints.{AreReady};
ghost use Rattle.apply_run.specs.Options.{IsInRange};

use crate::options::Options;
use crate::worker::StoppedWorker;
use apply_bus::{BusError, Claims, Drawer, Rx, Tx, open};
use std::alloc::Global;

/// What the workers and the collector hold of the claims and of the bus.
#[derive(Drop)]
pub(crate) struct Endpoints {
    /// A drawer for each worker.
    pub drawers: Vec<Drawer>,
    /// A sender for each worker.
    pub senders: Vec<Tx>,
    pub rx: Rx,
    /// Room for what each worker returns.
    pub stopped: Vec<StoppedWorker>,
}

/// What a run allocates before its threads start, apart from the list of threads.
#[derive(Drop)]
pub(crate) struct Prepared {
    pub claims: Claims,
    pub endpoints: Endpoints,
}

impl Prepared {
    /// Prepares a run over so many changes. The bus holds as many items as the options state. `Err`
    /// if memory is refused.
    pub fn new(alloc: Global, options: Options, changes: u32) -> Result<Prepared, BusError>
        requires { IsInRange options }
        ensures claims { IfOk result (λ ready. (ready.claims.limit ≡ changes) × (ready.claims.workers ≡ options.workers)) }
        ensures memory { IfErr result (λ error. error ≡ BusError.Memory) }
        ensures endpoints { IfOk result (λ ready. AreReady ready.claims ready.endpoints.rx.bus ready.endpoints) }
        ensures capacity { IfOk result (λ ready.
            ready.endpoints.senders.items ≡ new_senders ready.endpoints.rx.bus options.capacity options.workers) }
    {
        let (claims, drawers) = Claims::open(alloc, options.workers, changes)?;
        let (senders, rx) = open(alloc, options.workers, options.capacity)?;
        let stopped = Vec::with_capacity(alloc, usize::from(options.workers))?;
        let endpoints = Endpoints {
            drawers,
            senders,
            rx,
            stopped,
        };
        Ok(Prepared { claims, endpoints })
    }
}
