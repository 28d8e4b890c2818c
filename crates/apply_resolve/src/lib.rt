//! Finds what a script names in a plan: changes, steps, and steps that can never begin.
#![tactic(auto)]

mod change_numbers;
mod hashed_id;
mod object_id;
mod object_set;
mod reachability;
mod visit_state;
mod visit_states;
mod wait_target;

pub use change_numbers::ChangeNumbers;
pub use object_id::ObjectId;
pub use object_set::ObjectSet;
pub use reachability::{all_unreachable, first_unreachable};
pub use wait_target::waited_step;
