//! Laws of streams of our own: recorded and told again, they are the same bytes.
//!
//! Each function calls the laws that its own law follows from: its contract is the law. No program
//! links this crate.
#![tactic(auto)]

mod known;
mod plain;
mod terraform;
mod unwaited;
mod unwaited_in_terraforms_form;

pub use known::{
    a_work_goes_alike_with_the_script_of_its_stream, the_steps_of_what_was_read_back_are_known,
};
pub use plain::{
    a_recorded_script_has_the_stream_of_its_run, a_run_is_read_back,
    a_run_that_was_read_back_has_the_same_stream, a_stream_of_our_own_comes_again,
};
pub use terraform::{
    a_plan_left_unfinished_has_one_stream,
    a_recorded_script_has_the_stream_of_its_run_in_terraforms_form,
    a_run_is_read_back_in_terraforms_form,
    a_run_that_was_read_back_has_the_same_stream_in_terraforms_form,
    a_script_that_goes_alike_has_the_stream_of_its_run_in_terraforms_form,
    a_stream_of_our_own_comes_again_in_terraforms_form,
    outputs_and_diagnostics_of_a_stream_are_read_back,
};
pub use unwaited::{
    a_recorded_script_without_waits_has_the_stream_of_its_run,
    a_script_of_known_steps_has_what_was_recorded, a_stream_without_waits_comes_again,
    a_stream_without_waits_gets_none, the_steps_of_a_run_without_waits_are_known,
    the_steps_of_what_was_read_back_are_of_the_run,
};
pub use unwaited_in_terraforms_form::{
    a_recorded_script_without_waits_has_the_stream_of_its_run_in_terraforms_form,
    a_stream_without_waits_comes_again_in_terraforms_form,
};
