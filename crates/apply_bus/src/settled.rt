//! The account of a bus whose senders were all closed.

ghost use Rattle.std.specs.Prelude.{◌≡◌, map, All};
ghost use Rattle.apply_bus.specs.Bus.{account_of, sent_list_of, AreOf, IsTakenWhole, NamesWorkersBelow};
ghost use Rattle.apply_bus.specs.Items.{closes};

use crate::closed::Closed;
use crate::rx::Rx;
use crate::taken::Taken;
use std::marker::Model;

/// What was taken from a bus whose senders have all closed: the whole list of each sender. Only
/// contracts see the value.
#[derive(Drop)]
pub struct Settled {
    taken: Taken,
}

impl Model for Settled {
    ghost use Rattle.apply_bus.specs.Bus.{Account};

    ghost Value = { Account };

    ghost view = { λ s. s.taken };
}

/// Joins closed senders of a bus to its receiver, which has taken every close. The events taken
/// from each worker are those that it sent.
pub fn settle(rx: Rx, closed: Vec<Closed>) -> Settled
    requires left { closes rx.taken ≡ rx.workers }
    requires bus { AreOf rx.bus closed.items }
    ensures joined { result ≡ record (account_of rx) { sent_lists = map sent_list_of closed.items } }
    ensures whole { All (IsTakenWhole rx.taken) (map sent_list_of closed.items) }
    ensures named { NamesWorkersBelow rx.workers rx.taken }
{
    let mut taken = rx.give_up();
    taken.join_all_closed(closed);
    Settled { taken }
}
