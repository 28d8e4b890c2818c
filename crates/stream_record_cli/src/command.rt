//! The tool `record`: its arguments, what it reads, and what it writes.

pub mod arguments;
pub mod conflicts;
pub mod inputs;
pub mod plan_alone;
pub mod planning;
pub mod recording;
pub mod refusals;
pub mod settings;
pub mod step_names;
pub mod streams;
pub mod tool;
pub mod waits;
pub mod writing;
