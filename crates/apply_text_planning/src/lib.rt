//! The JSON lines of a planning and of a plan, in Terraform's form.
#![tactic(auto)]

mod laws;
mod lines;
mod messages;
mod notes;
mod outputs;
mod plan_totals;
mod planning_message;
mod words;

pub use laws::the_sums_of_a_plan_are_those_of_its_lines;
pub use lines::{push_message, push_planned};
pub use notes::{forgotten_note, targeting_note, unfinished_note};
pub use plan_totals::PlanTotals;
pub use planning_message::PlanningMessage;
