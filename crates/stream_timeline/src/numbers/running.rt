//! The state of a sweep over begins and ends.

ghost use Rattle.std.specs.Prelude.{◌≡◌, ◌<◌, ◌++◌, ◌^◌, [], ℕ, None, OnOk, Some};
ghost use Rattle.stream_timeline.specs.Sweeping.{IsReady, IsSmall, next_running, nothing_running, pushed, running_stretch};

use crate::numbers::edge::Edge;
use crate::numbers::stretch::Stretch;
use std::alloc::{AllocError, Global};

/// How many intervals have begun and ended so far, and the sums of their places. If one more
/// interval has begun than ended, the difference of the sums is the place of the interval that
/// runs. So the sweep finds the only step without a list of all that run.
#[derive(Clone, Copy)]
pub struct Running {
    pub begun: usize,
    pub ended: usize,
    pub begun_places: u128,
    pub ended_places: u128,
}

/// A sweep over begins and ends in order: the stretches so far, and the time of the last edge.
#[derive(Drop)]
pub struct Sweep {
    pub stretches: Vec<Stretch>,
    pub running: Running,
    pub last: Option<u64>,
}

impl Sweep {
    /// A sweep before its first edge.
    pub fn new(alloc: Global) -> Sweep
        ensures stretches { result.stretches.items ≡ [] }
        ensures running { result.running ≡ nothing_running }
        ensures last { result.last ≡ None }
    {
        Sweep {
            stretches: Vec::new(alloc),
            running: Running {
                begun: 0,
                ended: 0,
                begun_places: 0,
                ended_places: 0,
            },
            last: None,
        }
    }

    /// Adds the next edge, and the stretch up to it if the edge comes later than the last one.
    /// `Err` means that memory was refused.
    pub fn take(&mut self, edge: Edge) -> Result<(), AllocError>
        requires small { IsSmall self.old.running }
        requires ready { (at : ℕ) → self.old.last ≡ Some at → at < edge.time → IsReady self.old.running }
        ensures stretches { OnOk result (self.new.stretches.items
            ≡ self.old.stretches.items ++ pushed self.old.running self.old.last edge.time) }
        ensures running { OnOk result (self.new.running ≡ next_running edge self.old.running) }
        ensures last { OnOk result (self.new.last ≡ Some edge.time) }
    {
        if let Some(at) = self.last {
            if at < edge.time {
                self.stretches.push(self.running.stretch(at, edge.time))?;
            }
        }
        self.last = Some(edge.time);
        self.running = self.running.with(edge);
        Ok(())
    }
}

impl Running {
    /// The counts after one more edge.
    fn with(self, edge: Edge) -> Running
        requires { IsSmall self }
        ensures { result ≡ next_running edge self }
    {
        let mut new = self;
        if edge.is_end {
            new.ended += 1;
            new.ended_places += edge.place as u128;
        } else {
            new.begun += 1;
            new.begun_places += edge.place as u128;
        }
        new
    }

    /// The stretch between two neighbouring edges.
    fn stretch(self, begin: u64, end: u64) -> Stretch
        requires { IsReady self }
        ensures { result ≡ running_stretch self begin end }
    {
        let number = self.begun - self.ended;
        Stretch {
            begin,
            end,
            number,
            alone: if number == 1 {
                Some((self.begun_places - self.ended_places) as usize)
            } else {
                None
            },
        }
    }
}
