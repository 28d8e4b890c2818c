//! The plan and the script as values: changes, steps, outcomes, provisioners, waits and details.
#![tactic(auto)]

mod details;
mod plan;
mod script;
mod text;

pub use details::change_details::ChangeDetails;
pub use details::importing::Importing;
pub use details::note::{Note, Severity};
pub use details::output::Output;
pub use details::previous_resource::PreviousResource;
pub use details::reason::Reason;
pub use plan::action::Action;
pub use plan::address::relative_address;
pub use plan::change::Change;
pub use plan::change_parts::ChangeParts;
pub use plan::key::Key;
pub use plan::mode::Mode;
pub use plan::step_kind::StepKind;
pub use plan::{MAX_CHANGES, Plan};
pub use script::Script;
pub use script::diag::Diag;
pub use script::ending::Ending;
pub use script::outcome::{MAX_SECONDS, Outcome};
pub use script::provisioner::Provisioner;
pub use script::provisioners::{MAX_PROVISIONERS, Provisioners};
pub use script::script_step::ScriptStep;
pub use script::step_outcomes::StepOutcomes;
pub use script::timed_text::TimedText;
pub use script::timed_texts::{MAX_OUTPUTS, TimedTexts};
pub use script::wait::Wait;
pub use script::waits::{MAX_WAITS, Waits};
pub use text::Text;
