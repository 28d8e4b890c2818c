//! Laws of what `record` reads in the lines of a run: each line states what it tells.
//!
//! The contract of each function is the law. The function itself does nothing. No program links
//! this crate.
#![tactic(auto)]

mod lines;
mod readings;
mod streams;

pub use lines::{
    a_range_or_a_snippet_comes_back, each_diagnostic_is_stated, each_hook_message_states_its_event,
    each_other_line_states_what_it_tells, outputs_with_names_apart_come_back,
    timestamps_are_read_back,
};
pub use readings::{
    events_that_can_happen_can_be_told, record_reads_the_stream_of_a_run,
    the_time_of_a_time_line_never_falls,
};
pub use streams::each_line_of_a_stream_states_its_message;
