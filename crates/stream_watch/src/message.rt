//! The message of a line, and its outputs.

pub mod laws;
pub mod outputs;
pub mod progress;
pub mod reading;
pub mod shape;
