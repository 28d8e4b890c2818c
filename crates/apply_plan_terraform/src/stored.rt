//! Outputs in memory, with their members as JSON texts.

pub mod by_name;
pub mod output_member;
pub mod output_members;
pub mod sections;
pub mod sensitivity;
pub mod stored_output;
