//! Laws of `record`: of the lines that it reads, of its schedule, and of the scripts that it writes.
//!
//! Each function does nothing: its contract is the law. No program links this crate.
#![tactic(auto)]

mod schedules;
mod scripts;

ghost use Rattle.std.specs.Prelude.{◌≡◌, ◌≤◌, ℕ, Bool, List, length, not};
ghost use Rattle.stream_check.specs.Lines.{line_message};
ghost use Rattle.stream_lines.specs.Limits.{max_bytes};
ghost use Rattle.stream_record_lines.specs.Lines.{is_message, stated_line};
ghost use Rattle.stream_watch.specs.MessageLaws.{is_no_message};

pub use schedules::{
    a_stream_that_keeps_time_gets_no_wait, a_turn_starts_behind_the_step_that_it_began_behind,
};
pub use scripts::{
    a_run_in_form_reads_back_outputs_and_diagnostics, a_run_reads_back_what_record_writes,
};
use stream_watch::a_line_has_a_message_where_check_finds_one;

/// `record` reads a message in a line if and only if `check` finds one in it: a line that is no
/// JSON, or has no text `type`, has none, and so has a line of a log that `check` ignores. A
/// message whose members are faulty is one.
pub fn a_line_states_a_message_where_check_finds_one()
    ensures { (find : Bool) (line : List ℕ) → length line ≤ max_bytes
        → is_message (stated_line find line) ≡ not (is_no_message (line_message find line)) }
{
    a_line_has_a_message_where_check_finds_one();
}
