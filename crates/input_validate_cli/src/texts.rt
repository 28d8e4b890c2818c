//! The texts of findings, for people.

pub mod against_plan;
pub mod count;
pub mod expected;
pub mod finding;
pub mod jq_path;
pub mod json_end;
pub mod nearest_names;
pub mod plan_names;
pub mod plan_outputs;
pub mod text_place;
pub mod value;
