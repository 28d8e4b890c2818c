//! Laws of recorded waits with a graph, and of the steps of a recorded script.
//!
//! Each function does nothing: its contract is the law. No program links this crate.
#![tactic(auto)]

mod kept;
mod scripts;

pub use kept::waits_that_a_stream_kept_come_again;
pub use scripts::{
    a_recorded_script_has_the_steps_that_began, a_work_goes_alike_with_its_recorded_script,
    each_step_of_a_plan_stands_at_its_place,
};
