//! A finding: its place, and what is wrong there.

pub mod expected;
pub mod finding;
pub mod list;
pub mod name;
pub mod path;
pub mod problem;
