//! The tool `validate`: its arguments, what it reads, and what it writes.

pub mod arguments;
pub mod conflicts;
pub mod inputs;
pub mod refusals;
pub mod report_text;
pub mod tool;
pub mod validate_fault;
pub mod validating;
