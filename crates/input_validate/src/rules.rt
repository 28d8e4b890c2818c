//! Rules for values of any shape.

pub mod ignored_members;
pub mod members;
pub mod object;
pub mod rule;
pub mod violation;
pub mod walk;
