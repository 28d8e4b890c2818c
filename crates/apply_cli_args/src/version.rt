//! The version of the project.

/// The version of the project. The launcher reads it here too.
pub const VERSION: &str = "0.5.0";
