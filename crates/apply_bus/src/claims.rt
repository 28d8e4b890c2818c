//! Claims: the numbers of changes, each of which one worker draws.

ghost use Rattle.std.specs.Prelude.{◌≡◌, ◌<◌, ◌++◌, ◌∷◌, [], ◌⊎◌, ◌↔◌, true, All, Err, IfOk, IfSome, IsNone, IfNone};
ghost use Rattle.apply_bus.specs.Bus.{max_workers};
ghost use Rattle.apply_bus.specs.Claims.{new_drawers};

use crate::bus_error::BusError;
use crate::claims_rule::{ClaimsRule, DealsShare, Draws, Hand};
use crate::drawer::Drawer;
use crate::opening::MAX_WORKERS;
use atomic_table::Table;
use std::alloc::Global;
use std::marker::Model;

/// The numbers below a limit, each of which one drawer draws. Contracts see the limit and the
/// number of drawers, and tell these claims from any others. Threads may share them.
#[derive(Drop)]
pub struct Claims {
    pub(crate) table: Table<u8, Hand, (u32, u8), ClaimsRule, Global>,
    pub(crate) limit: u32,
    pub(crate) workers: u8,
}

impl Model for Claims {
    ghost use Rattle.apply_bus.specs.Claims.{ClaimsName};

    ghost Value = { ClaimsName };

    ghost use Rattle.std.specs.Prelude.{◌≡◌, ◌<◌};

    ghost view = { λ c. record { table = c.table.shared.table_id; limit = c.limit; workers = c.workers } };

    ghost invariant = { λ c. (c.table.shared.table_id.words ≡ 1)
        × (c.table.shared.key ≡ (c.limit, c.workers)) × (0 < c.workers) };
}

impl Claims {
    /// Opens claims on the numbers below `n`, with a drawer for each of 1 to 8 workers, in their
    /// order.
    ///
    /// `Err` with `BadSize` if the number of workers is out of range, else with `Memory` if memory
    /// is refused. No later call takes memory.
    pub fn open(alloc: Global, workers: u8, n: u32) -> Result<(Claims, Vec<Drawer>), BusError>
        ensures sizes { (result ≡ Err BusError.BadSize) ↔ ((workers < 1) ⊎ (max_workers < workers)) }
        ensures claims { IfOk result (λ opened. (opened.0.limit ≡ n) × (opened.0.workers ≡ workers)) }
        ensures drawers { IfOk result (λ opened. opened.1.items ≡ new_drawers opened.0 workers) }
    {
        if workers < 1 || MAX_WORKERS < workers {
            return Err(BusError::BadSize);
        }
        let key = (n, workers);
        let (table, mut seat) = Table::<u8, Hand, (u32, u8), ClaimsRule, Global>::of_words(
            alloc,
            &[0],
            &key,
        )?;
        let mut drawers = Vec::with_capacity(alloc, usize::from(workers))?;
        for worker in 0..workers {
            let theirs = table.shared.split_seat::<DealsShare>(&mut seat);
            let drawer = Drawer {
                seat: theirs,
                worker,
                met_none: false,
            };
            if drawers.push(drawer).is_err() {
                return Err(BusError::Memory);
            }
        }
        let claims = Claims {
            table,
            limit: n,
            workers,
        };
        Ok((claims, drawers))
    }

    /// Draws the next number that nobody has drawn, with a drawer of these claims. `None` if none
    /// is left, and from then on for this drawer.
    ///
    /// A draw never waits: it takes no handle that may wait, and so no lock.
    pub fn draw(&self, drawer: &mut Drawer) -> Option<u32>
        requires { drawer.old.claims ≡ self.now }

        // The number is below the limit, and above all that this drawer has drawn before.
        ensures some { IfSome result
            (λ number. drawer.new ≡ record drawer.old { drawn = drawer.old.drawn ++ number ∷ [] }) }
        ensures below { IfSome result (λ number. number < self.now.limit) }
        ensures rising { IfSome result (λ number. All (λ earlier. earlier < number) drawer.old.drawn) }

        ensures none { IfNone result (drawer.new ≡ record drawer.old { met_none = true }) }
        ensures after_none { drawer.old.met_none ≡ true → IsNone result }
    {
        if drawer.met_none {
            return None;
        }
        let previous = self.table.shared.fetch_add::<Draws>(&mut drawer.seat, 0, 1);
        if previous < u64::from(self.limit) {
            Some(previous as u32)
        } else {
            drawer.met_none = true;
            None
        }
    }
}
