//! The told objects that wait for names.
//!
//! Every `Err` means that memory was refused.

ghost use Rattle.std.specs.Prelude.{◌≡◌, ◌*◌, ◌<◌, ◌^◌, [], IfOk, length, map};
ghost use Rattle.apply_events.specs.Waits.Queue.{IsQueue, none_done};
ghost use Rattle.apply_planning.specs.Names.{name_waits};
ghost use Rattle.apply_planning.specs.NumberOf.{number_of};

use crate::names::Names;
use crate::told::Told;
use apply_events::Queue;
use std::alloc::{AllocError, Global};

/// The told objects, each waiting for the names that it depends on. None of them was taken.
pub(crate) fn queue_of(alloc: Global, told: &[Told], names: &Names<'_>) -> Result<Queue, AllocError>
    requires { length told.now < 2 ^ 32 }
    ensures { IfOk result (λ queue. IsQueue (2 * length told.now) (map (name_waits (number_of names.now)) told.now) none_done [] queue) }
{
    let mut queue = Queue::with_room(alloc, told.len() as u32, told.len())?;
    for one in told {
        let waits = names.waits_of(alloc, one)?;
        queue.add_waits(&waits)?;
    }
    Ok(queue)
}
