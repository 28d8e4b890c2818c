//! Checks the members of a script that only a run in Terraform's form reads.

pub mod bytes;
pub mod note;
pub mod outputs;
pub mod top_level;
