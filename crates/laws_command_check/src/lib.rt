//! Laws of `check`: it accepts every stream of a command that plans before it applies.
//!
//! The contract of each function is the law. The function itself does nothing, or calls the laws
//! that its own law follows from. No program links this crate.
#![tactic(auto)]

mod commands;
mod heads;

pub use commands::{
    a_planning_is_of_whole_steps, every_line_of_a_command_is_read_back,
    every_message_of_a_command_is_accepted, every_stream_of_a_command_is_accepted,
    only_reads_of_a_planning_warn, what_was_read_of_a_planning_can_be_read_back,
};
pub use heads::every_line_before_an_apply_is_read_back;
