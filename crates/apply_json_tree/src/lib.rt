//! Builds a tree of the parts of a JSON text (RFC 8259) that a caller asks for, and looks into it.
#![tactic(auto)]

pub mod members;
mod parsing;
mod shape;
mod trimming;

pub use parsing::{parse, parse_trimmed};
pub use shape::Shape;
