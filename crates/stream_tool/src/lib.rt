//! Runs a tool, from its arguments to its exit status: the rules that all tools share.
#![tactic(auto)]

mod arguments;
mod dash_tip;
mod draining;
mod file_fault;
mod options;
mod outcome;
mod parsing;
mod refusals;
mod reporting;
mod running;
mod status;
mod tool;
mod usage;
mod writing;

pub use arguments::{file, file_of};
pub use draining::flush_and_drain;
pub use file_fault::FileFault;
pub use options::{FIND, flag, is_given, with_option};
pub use outcome::{Outcome, Report};
pub use parsing::matches_of;
pub use refusals::{answer_usage, refuse_file, refuse_memory, refuse_unread};
pub use reporting::report;
pub use running::{read_words, run_input, run_tool};
pub use status::{FAILED, REFUSED};
pub use tool::Tool;
pub use usage::Usage;
pub use writing::{WriteFault, flush, write_whole};
