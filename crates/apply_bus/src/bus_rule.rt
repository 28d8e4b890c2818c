//! The rule of a bus, and what each kind of step under the rule ensures.

use crate::item::Item;
use crossbeam_channel::protocol::{Join, Lesson, Outcome, Protocol, Split};
use std::collections::LinkedList;

/// What a worker has sent. Only proofs use this type; no value of it exists.
pub struct Known {
    pub worker: u8,
    pub sent: LinkedList<Item>,
}

/// What a pass of a bus knows. Only proofs use this type; no value of it exists.
pub struct Knowledge {
    /// Whether it is the receiver's pass.
    pub receives: bool,
    /// The items that were taken.
    pub taken: LinkedList<Item>,
    /// How many senders were made.
    pub workers: u8,
    /// What each known sender has sent.
    pub senders: LinkedList<Known>,
}

/// The rule: what was taken, and then the queue, agrees with what was sent.
pub struct BusRule;

impl Protocol<Item, Knowledge> for BusRule {
    ghost use Rattle.std.specs.Prelude.{[]};
    ghost use Rattle.apply_bus.specs.BusRule.{receiving, IsLawful};

    ghost holds = { IsLawful };

    ghost first = { receiving [] 0 [] };
}

/// The step that makes a sender.
pub struct AddsSender;

impl Split<Knowledge> for AddsSender {
    ghost use Rattle.std.specs.Prelude.{[]};
    ghost use Rattle.apply_bus.specs.BusRule.{sending, with_one_more};

    ghost left = { with_one_more };

    ghost right = { λ v. sending v.workers [] };
}

/// The step that joins a sender.
pub struct JoinsSender;

impl Join<Knowledge> for JoinsSender {
    ghost use Rattle.apply_bus.specs.BusRule.{with_senders_of, spent};

    ghost both = { with_senders_of };

    ghost spent = { spent };
}

/// The step that sends an item.
pub struct Sends;

impl Outcome<Item, Knowledge> for Sends {
    ghost use Rattle.std.specs.Prelude.{◌≡◌};
    ghost use Rattle.apply_bus.specs.BusRule.{after_send};

    ghost then = { λ v item w. w ≡ after_send v item };
}

impl Lesson<Item, Knowledge> for Sends {
    ghost use Rattle.std.specs.Prelude.{⊤};

    ghost fact = { λ v queue. ⊤ };
}

/// The step that takes an item.
pub struct Takes;

impl Outcome<Item, Knowledge> for Takes {
    ghost use Rattle.apply_bus.specs.BusRule.{IsTaken};

    ghost then = { IsTaken };
}

impl Lesson<Item, Knowledge> for Takes {
    ghost use Rattle.std.specs.Prelude.{⊤};

    ghost fact = { λ v queue. ⊤ };
}

/// The step that only looks at the rule.
pub struct Looks;

impl Lesson<Item, Knowledge> for Looks {
    ghost use Rattle.apply_bus.specs.BusRule.{IsBorneOut};

    ghost fact = { IsBorneOut };
}
