//! A bounded channel that carries events from workers to one receiver, and numbers for workers to draw.
#![tactic(auto)]

mod bus_error;
mod bus_rule;
mod claims;
mod claims_rule;
mod closed;
mod dealt_numbers;
mod drawer;
mod drawer_join;
mod item;
mod lost;
mod opening;
mod receiving;
mod retry_pause;
mod rx;
mod salvaged;
mod sending;
mod settled;
mod taken;
mod tx;
mod undelivered;

pub use bus_error::BusError;
pub use claims::Claims;
pub use closed::Closed;
pub use dealt_numbers::{Shared, finish};
pub use drawer::Drawer;
pub use drawer_join::DrawerJoin;
pub use item::Item;
pub use lost::Lost;
pub use opening::{MAX_CAPACITY, MAX_WORKERS, open};
pub use rx::{MAX_TAKEN, Rx};
pub use salvaged::{Salvaged, salvage};
pub use settled::{Settled, settle};
pub use taken::Taken;
pub use tx::Tx;
pub use undelivered::Undelivered;
