//! Checks what a script says of objects that are refreshed or read while a plan is made.

pub mod bytes;
pub mod entry;
pub mod known_objects;
pub mod object;
pub mod top_level;
