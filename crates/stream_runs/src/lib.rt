//! Finds the runs of Terraform in one input: each `version` message begins a run.
#![tactic(auto)]

mod arguments;
mod beginning;
mod choice;
mod collecting;
mod counting;
mod fault;
mod selecting;

pub use arguments::{run_of, run_option, run_refusal};
pub use beginning::begins_run;
pub use choice::{RunChoice, run_named};
pub use counting::{SeveralRuns, count_runs};
pub use fault::{MissingRun, RunFault};
pub use selecting::{Run, select_run};
