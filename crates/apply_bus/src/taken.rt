//! The account of what was taken from a bus.

ghost use Rattle.std.specs.Prelude.{◌≡◌, ◌+◌, ◌++◌, ◌∷◌, [], map, All};
ghost use Rattle.apply_bus.specs.Bus.{sent_list_of, AreOf, IsTakenInPart, IsTakenWhole, NamesWorkersBelow};
ghost use Rattle.apply_bus.specs.Items.{closes};

use crate::bus_rule::{JoinsSender, Knowledge, Looks};
use crate::closed::Closed;
use crate::item::Item;
use crate::tx::Tx;
use crossbeam_channel::Pass;
use std::marker::Model;

/// What was taken from a bus whose receiver has ended. Its senders are joined to this account one
/// by one. Contracts see the bus, the number of its workers, the items that were taken, and what
/// each joined sender has sent.
#[derive(Drop)]
pub struct Taken {
    pub(crate) pass: Pass<Item, Knowledge>,
    pub(crate) left: u8,
}

impl Model for Taken {
    ghost use Rattle.apply_bus.specs.Bus.{Account};

    ghost Value = { Account };

    ghost use Rattle.std.specs.Prelude.{◌≡◌, []};
    ghost use Rattle.apply_bus.specs.BusEnds.{pass_taken, pass_workers, pass_sent_lists, IsReceivingPass};

    ghost view = { λ t. record {
      bus = record { table = t.pass.table_id; key = t.pass.me.0.of };
      workers = pass_workers t.pass;
      taken = pass_taken t.pass;
      sent_lists = pass_sent_lists t.pass;
    } };

    ghost invariant = { λ t. IsReceivingPass t.left t.pass × (t.pass.me.1 ≡ []) };
}

impl Taken {
    /// Returns how many workers' closes were not taken.
    pub fn open_left(&self) -> u8
        ensures left { result + closes self.now.taken ≡ self.now.workers }
        ensures named { NamesWorkersBelow self.now.workers self.now.taken }
    {
        self.left
    }

    /// Joins a closed sender of this bus. The events taken from its worker are a prefix of those
    /// that it sent, and all of them if every close was taken.
    pub fn join_closed(&mut self, closed: Closed)
        requires { closed.bus ≡ self.old.bus }
        ensures joined { self.new ≡ record self.old { sent_lists = self.old.sent_lists ++ sent_list_of closed ∷ [] } }
        ensures part { IsTakenInPart self.old.taken (sent_list_of closed) }
        ensures whole { closes self.old.taken ≡ self.old.workers → IsTakenWhole self.old.taken (sent_list_of closed) }
    {
        let Closed {
            end,
            pass,
            worker: _,
        } = closed;
        end.absorb::<JoinsSender>(&mut self.pass, pass);
        end.learn_as::<Looks>(&mut self.pass);
    }

    /// Joins a sender of this bus that was not closed. The events taken from its worker are a
    /// prefix of those that it sent.
    pub fn join_unclosed(&mut self, tx: Tx)
        requires { tx.bus ≡ self.old.bus }
        ensures joined { self.new ≡ record self.old { sent_lists = self.old.sent_lists ++ sent_list_of tx ∷ [] } }
        ensures part { IsTakenInPart self.old.taken (sent_list_of tx) }
    {
        let Tx {
            end,
            pass,
            worker: _,
        } = tx;
        end.absorb::<JoinsSender>(&mut self.pass, pass);
        end.learn_as::<Looks>(&mut self.pass);
    }

    /// Joins closed senders of this bus.
    pub(crate) fn join_all_closed(&mut self, closed: Vec<Closed>)
        requires { AreOf self.old.bus closed.items }
        ensures joined { self.new ≡ record self.old { sent_lists = self.old.sent_lists ++ map sent_list_of closed.items } }
        ensures part { All (IsTakenInPart self.old.taken) (map sent_list_of closed.items) }
        ensures whole { closes self.old.taken ≡ self.old.workers
            → All (IsTakenWhole self.old.taken) (map sent_list_of closed.items) }
    {
        for sender in closed {
            self.join_closed(sender);
        }
    }

    /// Joins senders of this bus that were not closed.
    pub(crate) fn join_all_open(&mut self, open: Vec<Tx>)
        requires { AreOf self.old.bus «open».items }
        ensures joined { self.new ≡ record self.old { sent_lists = self.old.sent_lists ++ map sent_list_of «open».items } }
        ensures part { All (IsTakenInPart self.old.taken) (map sent_list_of «open».items) }
    {
        for tx in open {
            self.join_unclosed(tx);
        }
    }
}
