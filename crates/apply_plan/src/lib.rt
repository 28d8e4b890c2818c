//! Reads a saved Terraform plan (JSON Output Format 1.x) and a script of outcomes.
#![tactic(auto)]

mod bytes;
mod filled_text;
mod members;
pub mod parts;
mod plan;
mod script;
mod valid_items;
mod zip_results;

pub use apply_model::{
    Change, Diag, Ending, Key, MAX_CHANGES, MAX_OUTPUTS, MAX_PROVISIONERS, MAX_SECONDS, MAX_WAITS,
    Mode, Outcome, Plan, Provisioner, Provisioners, Script, ScriptStep, StepKind, Text, TimedText,
    TimedTexts, Wait, Waits,
};
pub use bytes::MAX_BYTES;
pub use plan::plan_error::PlanError;
pub use plan::reading::read_plan;
pub use script::planning_error::PlanningError;
pub use script::reading::{never_beginning, read_script};
pub use script::script_error::ScriptError;
