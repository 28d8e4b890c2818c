//! Writes scripts of a plan, each as one line of JSON.
#![tactic(auto)]

mod diagnostics;
mod entries;
mod even;
mod output;
mod parts;
mod planned;
mod provisioners;
mod script_fault;
mod script_outputs;
mod scripting;
mod steps;
mod waits;

pub use even::{even_script, even_step, steps_at};
pub use output::Output;
pub use planned::planned_steps;
pub use script_fault::ScriptFault;
pub use scripting::{MAX_BYTES, script_text};
