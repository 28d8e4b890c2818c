//! Reads what only Terraform's form needs of a plan and a script: details, outputs, diagnostics.
#![tactic(auto)]

mod changes;
mod details;
mod details_shape;
mod elements;
mod extras;
mod flags;
mod notes;
mod output_changes;
mod plan_notes;
mod plan_outputs;
mod raw_output;
mod reading;
mod reasons;
mod script_notes;
mod script_outputs;
mod stored;
mod texts;
mod written;

pub use changes::read_plan_details;
pub use details::{Details, PlanDetails};
pub use elements::change_details;
pub use extras::Extras;
pub use notes::{is_errored, is_partial, plan_note};
pub use plan_notes::PlanNote;
pub use plan_outputs::PlanOutputs;
pub use reading::read_details;
pub use reasons::reason_named;
pub use script_outputs::read_extras;
pub use written::{written_notes, written_outputs};
