//! The receiver of a bus.

ghost use Rattle.std.specs.Prelude.{◌≡◌, ◌<◌, ◌≤◌, ◌+◌, ◌++◌, ◌∷◌, [], length, IfOk, IsErr, OnErr};
ghost use Rattle.apply_bus.specs.Bus.{account_of, NamesWorkersBelow};
ghost use Rattle.apply_bus.specs.Items.{closes, items_of, max_taken, worker_of};

use crate::bus_rule::{BusRule, Knowledge};
use crate::item::{Item, close_count};
use crate::lost::Lost;
use crate::receiving::take_item;
use crate::taken::Taken;
use crossbeam_channel::{Pass, RuledReceiver};
use std::marker::Model;
use std::sync::Wait;

/// The greatest number of items that a receiver takes, 2^29.
pub const MAX_TAKEN: u32 = 536_870_912;

/// The receiver of a bus. Contracts see its bus, the number of its workers, and the items that it
/// has taken; no memory holds these items.
#[derive(Drop)]
pub struct Rx {
    pub(crate) end: RuledReceiver<Item, Knowledge, BusRule>,
    pub(crate) pass: Pass<Item, Knowledge>,
    /// How many closes were not taken yet.
    pub(crate) left: u8,
    /// How many items were taken.
    pub(crate) count: u32,
}

impl Model for Rx {
    ghost use Rattle.apply_bus.specs.Bus.{Receiver};

    ghost Value = { Receiver };

    ghost use Rattle.std.specs.Prelude.{◌≡◌, []};
    ghost use Rattle.crossbeam_channel.specs.Claims.{IsSeatAt};
    ghost use Rattle.crossbeam_channel.specs.Ends.{receives_on};
    ghost use Rattle.apply_bus.specs.BusEnds.{pass_taken, pass_workers, pass_sent_lists, IsCountedPass, IsReceivingPass};

    ghost view = { λ r. record {
      bus = record { table = (receives_on r.end).stamps.shared.table_id; key = (receives_on r.end).stamps.shared.key };
      workers = pass_workers r.pass;
      taken = pass_taken r.pass;
    } };

    ghost invariant = { λ r. IsSeatAt (receives_on r.end) r.pass × IsReceivingPass r.left r.pass
        × IsCountedPass r.count r.pass × (pass_sent_lists r.pass ≡ []) };
}

impl Rx {
    /// Returns how many workers' closes were not taken yet.
    pub fn open_left(&self) -> u8
        ensures left { result + closes self.now.taken ≡ self.now.workers }
        ensures few { length self.now.taken ≤ max_taken }
    {
        self.left
    }

    /// Takes the next item, and waits while there is none.
    ///
    /// `Err` if 2^29 items were taken before, or if the channel reports that the senders are gone.
    /// Then the receiver is unchanged. No clause states when the channel reports that.
    pub fn take<R: Wait>(&mut self, rt: &R) -> Result<Item, Lost>
        requires { closes self.old.taken < self.old.workers }
        ensures ok { IfOk result (λ item. self.new ≡ record self.old { taken = self.old.taken ++ item ∷ [] }) }
        ensures err { OnErr result (self.new ≡ self.old) }

        // The item is of one of the workers, and of none whose close was taken before.
        ensures named { IfOk result (λ item. worker_of item < self.old.workers) }
        ensures before_close { IfOk result (λ item. closes (items_of (worker_of item) self.old.taken) ≡ 0) }

        ensures few { length self.new.taken ≤ max_taken }
        ensures full { length self.old.taken ≡ max_taken → IsErr result }
    {
        if self.count >= MAX_TAKEN {
            return Err(Lost);
        }
        match take_item(rt, &self.end, &mut self.pass) {
            Ok(item) => {
                self.left -= close_count(&item);
                self.count += 1;
                Ok(item)
            }
            Err(lost) => Err(lost),
        }
    }

    /// Ends the receiving, and returns the account of what was taken. From now on nothing can be
    /// sent.
    pub fn give_up(self) -> Taken
        ensures taken { result ≡ account_of self }
        ensures named { NamesWorkersBelow self.workers self.taken }
    {
        let Rx {
            end: _,
            pass,
            left,
            count: _,
        } = self;
        Taken { pass, left }
    }
}
