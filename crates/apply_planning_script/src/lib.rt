//! Which objects a stream tells of while a plan is made, by the plan and by what a script says.
#![tactic(auto)]

mod all_told;
mod checking;
mod decisions;
mod expected;
mod item_slots;
mod members;
mod name;
mod object_index;
mod planning_slots;
mod raw_item;
mod raw_items;
mod reading;
mod rules;
mod scalars;
mod told;
mod unknown_object;

pub use all_told::told_objects;
pub use name::name_of;
pub use rules::PlanningRules;
