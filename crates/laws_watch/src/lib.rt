//! Laws of what `watch` prints: its rows and their order, its lines and lengths, and what is hidden.
//!
//! Each function does nothing: its contract is the law. No program links this crate.
//!
//! `watch` prints rows for each line. A row has a time, a mark and a text, or it belongs to the row
//! before it. `specs/Asked.antt` says which rows a line asks for: its message alone decides.
#![tactic(auto)]

mod durations;
mod hidden;
mod memory;
mod printed;
mod progress;
mod rows;
mod telling;
mod verdict;

pub use durations::a_duration_is_that_of_view;
pub use hidden::sensitive_values_are_hidden;
pub use memory::what_is_remembered_is_bounded;
pub use printed::{colours_can_be_taken_out, no_line_is_wider, no_stream_steers, no_text_steers};
pub use progress::{progress_changes_no_step, progress_is_thinned};
pub use rows::{a_panel_hides_begins_and_progress, a_row_is_whole_lines, marks_are_rows};
pub use telling::{
    a_diagnostic_is_told_whole, an_error_asks_for_one_row, each_line_is_told_once,
    lines_are_told_in_order, what_was_told_stays_told,
};
pub use verdict::{a_good_verdict_is_of_a_whole_stream, the_verdict_is_told_last};
