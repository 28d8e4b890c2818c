//! Checks a plan.

pub mod element;
pub mod elements;
pub mod object_name;
pub mod top_level;
