//! Opens a bus.

ghost use Rattle.std.specs.Prelude.{◌≡◌, ◌<◌, ◌⊎◌, ◌↔◌, [], Err, IfOk};
ghost use Rattle.apply_bus.specs.Bus.{max_capacity, max_workers, new_senders};

use crate::bus_error::BusError;
use crate::bus_rule::{AddsSender, BusRule, Knowledge};
use crate::item::Item;
use crate::rx::Rx;
use crate::tx::Tx;
use crossbeam_channel::bounded_with;
use std::alloc::Global;

/// The greatest number of workers of a bus, and of claims.
pub const MAX_WORKERS: u8 = 8;

/// The greatest capacity of a bus.
pub const MAX_CAPACITY: u16 = 1024;

/// Opens a bus for 1 to 8 workers that holds `capacity` items, 1 to 1,024. Returns a sender for
/// each worker, in their order, and the receiver.
///
/// `Err` with `BadSize` if a size is out of range, else with `Memory` if memory is refused. No
/// later call takes memory.
pub fn open(alloc: Global, workers: u8, capacity: u16) -> Result<(Vec<Tx>, Rx), BusError>
    ensures sizes { (result ≡ Err BusError.BadSize)
        ↔ ((workers < 1) ⊎ (max_workers < workers) ⊎ (capacity < 1) ⊎ (max_capacity < capacity)) }
    ensures senders { IfOk result (λ bus. bus.0.items ≡ new_senders bus.1.bus capacity workers) }
    ensures receiver { IfOk result (λ bus. (bus.1.workers ≡ workers) × (bus.1.taken ≡ [])) }
{
    if workers < 1 || MAX_WORKERS < workers || capacity < 1 || MAX_CAPACITY < capacity {
        return Err(BusError::BadSize);
    }
    let (first, receiver, mut pass) = bounded_with::<Item, Knowledge, BusRule, Global>(
        alloc,
        usize::from(capacity),
    )?;
    let mut senders = Vec::with_capacity(alloc, usize::from(workers))?;
    for worker in 0..workers {
        let theirs = first.another::<AddsSender>(&mut pass);
        let end = first.try_clone()?;
        let tx = Tx {
            end,
            pass: theirs,
            worker,
        };
        if senders.push(tx).is_err() {
            return Err(BusError::Memory);
        }
    }
    let rx = Rx {
        end: receiver,
        pass,
        left: workers,
        count: 0,
    };
    Ok((senders, rx))
}
