//! How a sender waits for room in the channel.

ghost use Rattle.std.specs.Prelude.{◌≡◌, MatchBool};
ghost use Rattle.crossbeam_channel.specs.Claims.{view, IsSeatAt};
ghost use Rattle.crossbeam_channel.specs.Ends.{sends_on};
ghost use Rattle.apply_bus.specs.BusEnds.{IsOpenPass};
ghost use Rattle.apply_bus.specs.BusRule.{after_send};
ghost use Rattle.apply_bus.specs.Items.{worker_of};

use crate::bus_rule::{BusRule, Knowledge, Sends};
use crate::item::Item;
use crate::retry_pause::pause_awake;
use crossbeam_channel::{Pass, RuledSender};
use std::sync::Wait;
use std::sync::atomic::AtomicU64;
use std::time::Duration;

/// The last pause, counted from 0, before a sender goes to sleep.
const PAUSES_AWAKE: u32 = 200;

/// Sends an item, and waits while the channel is full. `false` if the receiver is gone: then
/// nothing was sent.
pub(crate) fn send_item<R: Wait>(
    rt: &R,
    end: &RuledSender<Item, Knowledge, BusRule>,
    pass: &mut Pass<Item, Knowledge>,
    item: Item,
) -> bool
    requires seat { IsSeatAt (sends_on end.now) pass.old }
    requires sender { IsOpenPass (worker_of item) pass.old }
    ensures seat { IsSeatAt (sends_on end.now) pass.new }
    ensures sent { MatchBool result
        (view pass.new ≡ after_send (view pass.old) item)
        (view pass.new ≡ view pass.old) }
{
    let mut pauses = 0;
    for _ in rt.forever() {
        match end.try_send_as::<Sends, R>(rt, pass, item) {
            Ok(()) => return true,
            Err(refused) => {
                if !refused.is_full() {
                    return false;
                }
            }
        }
        pauses = pause(rt, pauses);
    }
    unreachable!()
}

/// Waits a little, longer each time: spins, then yields, then sleeps. Returns the number of pauses
/// so far, with this one.
///
/// A sender never sleeps on the channel, so the receiver has nobody to wake.
fn pause<R: Wait>(rt: &R, pauses: u32) -> u32 {
    if pauses <= PAUSES_AWAKE {
        pause_awake(pauses);
    } else {
        let word = AtomicU64::new(0);
        let micros = 50u64 << (pauses - PAUSES_AWAKE).min(4);
        word.park_timeout(rt, 0, Duration::from_micros(micros));
    }
    pauses.saturating_add(1)
}
