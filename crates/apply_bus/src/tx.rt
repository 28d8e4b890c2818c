//! The senders of a bus.

ghost use Rattle.std.specs.Prelude.{◌≡◌, ◌++◌, ◌∷◌, [], IfErr, IfOk, OnErr, OnOk};

use crate::bus_rule::{BusRule, Knowledge};
use crate::closed::Closed;
use crate::item::Item;
use crate::sending::send_item;
use crate::undelivered::Undelivered;
use apply_events::Event;
use crossbeam_channel::{Pass, RuledSender};
use std::marker::Model;
use std::sync::Wait;

/// The sender of one worker. Contracts see its bus, its worker, and the events that it has sent; no
/// memory holds these events.
#[derive(Drop)]
pub struct Tx {
    pub(crate) end: RuledSender<Item, Knowledge, BusRule>,
    pub(crate) pass: Pass<Item, Knowledge>,
    pub(crate) worker: u8,
}

impl Model for Tx {
    ghost use Rattle.apply_bus.specs.Bus.{Sender};

    ghost Value = { Sender };

    ghost use Rattle.crossbeam_channel.specs.Claims.{IsSeatAt};
    ghost use Rattle.crossbeam_channel.specs.Ends.{ruled_capacity, sends_on};
    ghost use Rattle.apply_bus.specs.BusEnds.{pass_sent, IsOpenPass};

    ghost view = { λ t. record {
      bus = record { table = (sends_on t.end).stamps.shared.table_id; key = (sends_on t.end).stamps.shared.key };
      capacity = ruled_capacity (sends_on t.end);
      worker = t.worker;
      sent = pass_sent t.pass;
    } };

    ghost invariant = { λ t. IsSeatAt (sends_on t.end) t.pass × IsOpenPass t.worker t.pass };
}

impl Tx {
    /// Returns the worker whose events this sender sends.
    pub fn worker(&self) -> u8
        ensures { result ≡ self.now.worker }
    {
        self.worker
    }

    /// Sends an event of this worker, and waits while the bus is full.
    ///
    /// `Err` with the event if the channel reports that the receiver is gone. Then the sender is
    /// unchanged. No clause states when the channel reports that.
    pub fn send<R: Wait>(&mut self, rt: &R, event: Event) -> Result<(), Undelivered>
        requires { event.worker ≡ self.old.worker }
        ensures ok { OnOk result (self.new ≡ record self.old { sent = self.old.sent ++ event ∷ [] }) }
        ensures err { OnErr result (self.new ≡ self.old) }
        ensures back { IfErr result (λ refused. refused.0 ≡ event) }
    {
        if send_item(rt, &self.end, &mut self.pass, Item::Event(event)) {
            Ok(())
        } else {
            Err(Undelivered(event))
        }
    }

    /// Tells the receiver that this worker sends nothing more, and waits while the bus is full.
    ///
    /// `Err` with the unchanged sender if the channel reports that the receiver is gone. No clause
    /// states when the channel reports that.
    pub fn close<R: Wait>(self, rt: &R) -> Result<Closed, Tx>
        ensures ok { IfOk result (λ closed. closed ≡ self) }
        ensures err { IfErr result (λ tx. tx ≡ self) }
    {
        let Tx {
            end,
            mut pass,
            worker,
        } = self;
        if send_item(rt, &end, &mut pass, Item::Close(worker)) {
            Ok(Closed { end, pass, worker })
        } else {
            Err(Tx { end, pass, worker })
        }
    }
}
