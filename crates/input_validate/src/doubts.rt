//! Finds what a run accepts, and what is likely a mistake.

pub mod failed;
pub mod outputs;
pub mod skips;
pub mod unheeded;
pub mod waited;
pub mod whole;
