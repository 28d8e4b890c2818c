//! Laws of `plan`, `apply` and `destroy` without a saved plan: their plannings, streams and ends.
//!
//! Each function does nothing, or calls the laws that its own law follows from: its contract is the
//! law. No program links this crate.
#![tactic(auto)]

mod endings;
mod plannings;
mod saved;
mod streams;
mod values;

pub use endings::a_command_has_a_summary_or_an_error;
pub use plannings::{
    a_refresh_comes_after_what_it_waits_for, each_object_is_refreshed_or_read_once,
    no_more_objects_are_under_way_than_lanes, what_waits_for_a_failure_is_left_out,
};
pub use saved::a_saved_plan_is_applied_in_its_form_alone;
pub use streams::{
    an_apply_prints_what_that_of_a_saved_plan_prints, the_same_bytes_give_the_same_stream,
    the_stream_of_a_plan_begins_those_of_its_apply_and_destroy,
};
pub use values::of_a_prior_state_only_ids_are_told_that_are_not_sensitive;
