//! Terraform's `plan`, `apply` and `destroy` without a saved plan: what they print, and the apply.
#![tactic(auto)]

mod command_head;
mod command_lines;
mod command_notes;
mod head_line;
mod head_lines;
mod planned;
mod prepared;
mod prepared_views;
mod preparing;
mod read_command;
mod reading;

pub use planned::{apply_planned, apply_planned_in_lanes};
