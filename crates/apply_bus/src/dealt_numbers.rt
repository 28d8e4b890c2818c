//! The numbers that the drawers of claims have drawn.

ghost use Rattle.std.specs.Prelude.{◌≡◌, ℕ};
ghost use Rattle.apply_bus.specs.Claims.{lists_drawn, IsDealtOut, IsOneForEach};
ghost use Rattle.apply_bus.specs.Seats.{seat_lists};

use crate::claims::Claims;
use crate::claims_rule::Hand;
use crate::drawer::Drawer;
use crate::drawer_join::DrawerJoin;
use atomic_table::Seat;
use std::marker::Model;

/// The numbers that each drawer of some claims has drawn, in the order in which the drawers were
/// joined. Only contracts see the value.
#[derive(Drop)]
pub struct Shared {
    seat: Seat<u8, Hand>,
}

impl Model for Shared {
    ghost use Rattle.std.specs.Prelude.{List, ℕ};

    ghost Value = { List (List ℕ) };

    ghost use Rattle.apply_bus.specs.Seats.{seat_lists};

    ghost view = { λ s. seat_lists s.seat };
}

impl Shared {
    /// Takes the numbers from the shares of the seat.
    pub(crate) fn of(seat: Seat<u8, Hand>) -> Shared
        ensures { result ≡ seat_lists seat }
    {
        Shared { seat }
    }
}

/// Joins one drawer for each worker of the claims. The drawers' lists share out the numbers below
/// some m. If a drawer has met the end, m is the limit.
pub fn finish(claims: Claims, drawers: Vec<Drawer>) -> Shared
    requires { IsOneForEach claims drawers.items }
    ensures lists { result ≡ lists_drawn drawers.items }
    ensures dealt_out { (m : ℕ) × IsDealtOut claims drawers.items m }
{
    let mut drawer_join = DrawerJoin::begin(&claims);
    for drawer in drawers {
        drawer_join.join(&claims, drawer);
    }
    drawer_join.finish(&claims)
}
