//! Finds every error of a plan and a script at once, each with its place.
#![tactic(auto)]

mod addresses;
mod against_plan;
mod doubts;
mod extras;
mod findings;
mod form;
mod input_findings;
mod nearest_names;
mod plan;
mod planning;
mod rules;
mod script;

pub use addresses::nearest_addresses;
pub use findings::expected::Expected;
pub use findings::finding::Finding;
pub use findings::list::Findings;
pub use findings::name::Name;
pub use findings::path::{Path, Segment};
pub use findings::problem::Problem;
pub use form::Form;
pub use input_findings::{InputFindings, findings_of, findings_of_plan, findings_of_script};
pub use nearest_names::nearest;
pub use planning::top_level::MAX_PLANNED;
pub use script::known_names::known_names;
