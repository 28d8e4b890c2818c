//! The main command of `applystream`, from its arguments to its exit status.
#![tactic(auto)]

mod answer;
mod input;
mod input_fault;
mod job;
mod program;
mod prompting_reader;
mod read_fault;
mod reporting;
mod script_file;
mod shared_options;
mod standard;
mod status;
mod unmatched;
mod version;

pub use answer::answer_usage;
pub use apply_cli_args::{
    Halt, Invocation, Misplaced, Settings, Usage, VERSION, read_invocation, read_words,
};
pub use input::read_all;
pub use input_fault::InputFault;
pub use job::Job;
pub use program::{
    follow, follow_invocation, given_words, run_command, run_in_lanes, run_input, run_job,
    run_job_in_lanes,
};
pub use prompting_reader::PromptingReader;
pub use script_file::{ScriptFault, read_file, report_script};
pub use standard::{follow_standard, refuse_standard};
pub use status::{input_status, refusal_status, run_status};
pub use version::{answer_version, ask_for_version};
