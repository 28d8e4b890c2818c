//! Joins the drawers of claims, one by one.

ghost use Rattle.std.specs.Prelude.{◌≡◌, ℕ, ◌++◌, ◌∷◌, []};
ghost use Rattle.apply_events.specs.Partition.{NamesEachWorkerOnce};
ghost use Rattle.apply_bus.specs.Claims.{lists_drawn, workers_of, IsDealtOut};

use crate::claims::Claims;
use crate::claims_rule::{EntersEmpty, Hand, JoinsShares, LooksAtShares};
use crate::dealt_numbers::Shared;
use crate::drawer::Drawer;
use atomic_table::Seat;
use std::marker::Model;

/// The drawers of some claims that were joined so far. Contracts see the claims, and the numbers
/// that each of these drawers has drawn.
#[derive(Drop)]
pub struct DrawerJoin {
    seat: Seat<u8, Hand>,
    limit: u32,
    workers: u8,
}

impl Model for DrawerJoin {
    ghost use Rattle.apply_bus.specs.Claims.{JoinedDrawers};

    ghost Value = { JoinedDrawers };

    ghost use Rattle.apply_bus.specs.Seats.{seat_drawings, IsJoiningSeat};

    ghost view = { λ t. record {
      claims = record { table = t.seat.table_id; limit = t.limit; workers = t.workers };
      drawings = seat_drawings (record { table = t.seat.table_id; limit = t.limit; workers = t.workers }) t.seat;
    } };

    ghost invariant = { λ t. IsJoiningSeat t.limit t.workers t.seat };
}

impl DrawerJoin {
    /// Starts without any drawer of these claims.
    pub fn begin(claims: &Claims) -> DrawerJoin
        ensures { result ≡ record { claims = claims.now; drawings = [] } }
    {
        let (_, seat) = claims.table.shared.load_new_seat::<EntersEmpty>(0);
        DrawerJoin {
            seat,
            limit: claims.limit,
            workers: claims.workers,
        }
    }

    /// Joins a drawer of these claims.
    pub fn join(&mut self, claims: &Claims, drawer: Drawer)
        requires claims { self.old.claims ≡ claims.now }
        requires drawer { drawer.claims ≡ claims.now }
        ensures { self.new ≡ record self.old { drawings = self.old.drawings ++ drawer ∷ [] } }
    {
        let Drawer {
            seat: theirs,
            worker: _,
            met_none: _,
        } = drawer;
        claims
            .table
            .shared
            .join_seat::<JoinsShares>(&mut self.seat, theirs);
    }

    /// Ends the join once there is one drawer for each worker. The drawers' lists share out the
    /// numbers below some m. If a drawer has met the end, m is the limit.
    pub fn finish(self, claims: &Claims) -> Shared
        requires claims { self.claims ≡ claims.now }
        requires each { NamesEachWorkerOnce self.claims.workers (workers_of self.drawings) }
        ensures lists { result ≡ lists_drawn self.drawings }
        ensures dealt_out { (m : ℕ) × IsDealtOut self.claims self.drawings m }
    {
        let DrawerJoin {
            mut seat,
            limit: _,
            workers: _,
        } = self;
        claims.table.shared.load::<LooksAtShares>(&mut seat, 0);
        Shared::of(seat)
    }
}
