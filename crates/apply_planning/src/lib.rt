//! The events of a planning: which objects are refreshed and read before an apply, and when.
#![tactic(auto)]

mod begins;
mod lane;
mod names;
mod pending_names;
mod planning_events;
mod queue;
mod schedule;
mod told;
mod told_events;

pub use begins::MAX_TOLD;
pub use planning_events::PlanningEvents;
pub use schedule::Schedule;
pub use told::Told;
