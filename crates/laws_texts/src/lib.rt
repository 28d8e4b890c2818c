//! Laws of streams: what decides their bytes.
//!
//! Each function does nothing: its contract is the law. No program links this crate.
#![tactic(auto)]

mod lines;
mod notes;
mod streams;
mod time_lines;

pub use lines::hook_messages_of_steps_that_run_alike_are_the_same;
pub use notes::{diagnostics_come_after_the_ends_of_their_steps, no_diagnostic_comes_last};
pub use streams::{
    streams_in_terraforms_form_are_the_same, streams_of_the_same_messages_are_the_same,
};
pub use time_lines::{
    events_of_a_time_line_are_of_steps_that_begin, time_lines_that_end_alike_have_the_same_stream,
    time_lines_that_end_alike_have_the_same_stream_in_terraforms_form,
};
