//! Formatting of durations, ids, numbers and timestamps.

pub mod elapsed;
pub mod id_suffix;
pub mod number;
pub mod timestamp;
