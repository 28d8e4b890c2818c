//! A closed sender.

use crate::bus_rule::{BusRule, Knowledge};
use crate::item::Item;
use crossbeam_channel::{Pass, RuledSender};
use std::marker::Model;

/// A sender that was closed: its close is the last item that it sent. Contracts see it like a `Tx`.
///
/// It holds its end of the channel, since only a sender's end can join its knowledge to the
/// receiver's.
#[derive(Drop)]
pub struct Closed {
    pub(crate) end: RuledSender<Item, Knowledge, BusRule>,
    pub(crate) pass: Pass<Item, Knowledge>,
    pub(crate) worker: u8,
}

impl Model for Closed {
    ghost use Rattle.apply_bus.specs.Bus.{Sender};

    ghost Value = { Sender };

    ghost use Rattle.crossbeam_channel.specs.Claims.{IsSeatAt};
    ghost use Rattle.crossbeam_channel.specs.Ends.{ruled_capacity, sends_on};
    ghost use Rattle.apply_bus.specs.BusEnds.{pass_sent, IsClosedPass};

    ghost view = { λ t. record {
      bus = record { table = (sends_on t.end).stamps.shared.table_id; key = (sends_on t.end).stamps.shared.key };
      capacity = ruled_capacity (sends_on t.end);
      worker = t.worker;
      sent = pass_sent t.pass;
    } };

    ghost invariant = { λ t. IsSeatAt (sends_on t.end) t.pass × IsClosedPass t.worker t.pass };
}
