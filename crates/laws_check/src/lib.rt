//! Laws of `check`: it accepts every stream that a run writes, in both forms.
//!
//! The contract of each function is the law. The function itself does nothing, or calls the laws that
//! its own law follows from. No program links this crate.
#![tactic(auto)]

mod applied;
mod applied_in_form;
mod form_streams;
mod forms;
mod in_form;
mod laws;

pub use applied::{
    a_plan_that_was_read_is_ordinary, every_applied_stream_is_accepted,
    every_event_of_a_run_can_happen, every_stream_applied_in_lanes_is_accepted,
    every_stream_of_what_was_read_is_accepted,
    every_stream_of_whole_steps_that_were_read_is_accepted, texts_that_were_read_are_utf8,
};
pub use applied_in_form::{
    creates_that_never_start_are_skipped_or_wait_in_vain, every_run_in_terraforms_form_is_accepted,
    every_stream_in_terraforms_form_is_accepted,
    every_stream_of_whole_steps_in_terraforms_form_is_accepted,
    what_was_read_for_terraforms_form_can_be_read_back,
    what_was_read_for_terraforms_form_may_be_applied,
};
pub use form_streams::{
    every_line_in_terraforms_form_is_read_back, the_line_of_outputs_is_read_back,
};
pub use forms::{a_stream_has_an_end_or_an_error, no_end_has_the_level_error};
pub use in_form::{
    an_escaped_text_is_read_as_the_text, both_forms_have_the_same_message_for_an_event,
    every_line_of_an_event_is_read_back, every_line_of_no_event_is_read_back,
    every_message_before_the_end_is_accepted, lines_are_judged_by_their_messages,
    whole_steps_are_accepted_in_terraforms_form,
};
pub use laws::{
    a_run_is_of_whole_steps, a_script_provisions_creates, a_script_warns_of_reads,
    a_stream_of_texts_can_be_read, events_that_can_happen_fit_bits, every_run_is_accepted,
    every_stream_in_lanes_is_accepted, every_stream_is_accepted,
    every_stream_of_objects_is_accepted, every_stream_of_whole_steps_is_accepted,
    the_object_of_an_event_is_read_back, whole_steps_are_accepted,
};
