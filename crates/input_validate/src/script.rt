//! Checks a script.

pub mod diagnostic;
pub mod entry;
pub mod failure;
pub mod known_names;
pub mod output;
pub mod provisioner;
pub mod step;
pub mod top_level;
pub mod wait;
