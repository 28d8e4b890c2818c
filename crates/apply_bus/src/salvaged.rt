//! The account of a bus on which the receiver gave up.

ghost use Rattle.std.specs.Prelude.{◌≡◌, ◌++◌, map, All};
ghost use Rattle.apply_bus.specs.Bus.{sent_list_of, AreOf, IsTakenInPart};

use crate::closed::Closed;
use crate::taken::Taken;
use crate::tx::Tx;
use std::marker::Model;

/// What was taken from a bus that was given up: a prefix of the list of each sender. Only contracts
/// see the value.
#[derive(Drop)]
pub struct Salvaged {
    taken: Taken,
}

impl Model for Salvaged {
    ghost use Rattle.apply_bus.specs.Bus.{Account};

    ghost Value = { Account };

    ghost view = { λ s. s.taken };
}

/// Joins senders of a bus, closed or not, to what was taken from it. The events taken from each
/// worker are a prefix of those that it sent.
pub fn salvage(mut taken: Taken, closed: Vec<Closed>, open: Vec<Tx>) -> Salvaged
    requires closed { AreOf taken.bus closed.items }
    requires not_closed { AreOf taken.bus «open».items }
    ensures joined { result ≡ record taken {
      sent_lists = taken.sent_lists ++ map sent_list_of closed.items ++ map sent_list_of «open».items;
    } }
    ensures closed { All (IsTakenInPart taken.taken) (map sent_list_of closed.items) }
    ensures not_closed { All (IsTakenInPart taken.taken) (map sent_list_of «open».items) }
{
    taken.join_all_closed(closed);
    taken.join_all_open(open);
    Salvaged { taken }
}
