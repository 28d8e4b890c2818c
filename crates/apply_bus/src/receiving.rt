//! How a receiver waits for an item.

ghost use Rattle.std.specs.Prelude.{◌≡◌, true, MatchResult};
ghost use Rattle.crossbeam_channel.specs.Claims.{view, IsSeatAt};
ghost use Rattle.crossbeam_channel.specs.Ends.{receives_on};
ghost use Rattle.apply_bus.specs.BusRule.{IsTaken};

use crate::bus_rule::{BusRule, Knowledge, Takes};
use crate::item::Item;
use crate::lost::Lost;
use crate::retry_pause::pause_awake;
use crossbeam_channel::{Pass, RuledReceiver};
use std::sync::Wait;

/// The number of pauses before a receiver sleeps: seven spins, and one in which other threads run.
/// With more pauses, blocked workers would run as often as the one that has an item.
const PAUSES_AWAKE: u32 = 8;

/// Takes the next item, and waits while there is none.
///
/// The receiver lets other threads run before it sleeps on the channel. With few processors, a
/// sender fills the channel meanwhile, so that not every item costs a wake-up.
///
/// `Err` if the channel reports that the senders are gone. Then nothing was taken.
pub(crate) fn take_item<R: Wait>(
    rt: &R,
    end: &RuledReceiver<Item, Knowledge, BusRule>,
    pass: &mut Pass<Item, Knowledge>,
) -> Result<Item, Lost>
    requires seat { IsSeatAt (receives_on end.now) pass.old }
    requires receiver { (view pass.old).receives ≡ true }
    ensures seat { IsSeatAt (receives_on end.now) pass.new }
    ensures taken { MatchResult result
        (λ item. IsTaken (view pass.old) item (view pass.new))
        (λ _. view pass.new ≡ view pass.old) }
{
    for pauses in 0..PAUSES_AWAKE {
        if let Ok(item) = end.try_recv_as::<Takes, R>(rt, pass) {
            return Ok(item);
        }
        pause_awake(pauses);
    }
    match end.recv_as::<Takes, R>(rt, pass) {
        Ok(item) => Ok(item),
        Err(_) => Err(Lost),
    }
}
