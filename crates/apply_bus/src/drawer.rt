//! The drawers of claims.

ghost use Rattle.std.specs.Prelude.{◌≡◌};

use crate::claims_rule::Hand;
use atomic_table::Seat;
use std::marker::Model;

/// The drawer of one worker. Contracts see its claims, its worker, the numbers that it has drawn,
/// and whether it has met the end. No memory holds these numbers.
#[derive(Drop)]
pub struct Drawer {
    pub(crate) seat: Seat<u8, Hand>,
    pub(crate) worker: u8,
    pub(crate) met_none: bool,
}

impl Model for Drawer {
    ghost use Rattle.apply_bus.specs.Claims.{Drawing};

    ghost Value = { Drawing };

    ghost use Rattle.apply_bus.specs.Seats.{seat_claims, seat_drawn, IsDrawerSeat};

    ghost view = { λ d. record {
      claims = seat_claims d.seat;
      worker = d.worker;
      drawn = seat_drawn d.seat;
      met_none = d.met_none;
    } };

    ghost invariant = { λ d. IsDrawerSeat d.worker d.met_none d.seat };
}

impl Drawer {
    /// Returns the worker that draws with this drawer.
    pub fn worker(&self) -> u8
        ensures { result ≡ self.now.worker }
    {
        self.worker
    }

    /// Whether a draw has met the end: no number was left.
    pub fn met_none(&self) -> bool
        ensures { result ≡ self.now.met_none }
    {
        self.met_none
    }
}
