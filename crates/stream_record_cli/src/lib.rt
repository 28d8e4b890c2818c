//! `applystream record`: the tool that makes a script of an apply's stream, or of a plan alone.
#![tactic(auto)]

mod command;
mod graph_refusal;
mod record_fault;
mod refusal;

pub use command::plan_alone::record_plan;
pub use command::recording::{StreamChoice, record_stream};
pub use command::settings::Settings;
pub use command::tool::Record;
pub use graph_refusal::GraphRefusal;
pub use record_fault::RecordFault;
