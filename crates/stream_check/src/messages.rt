//! Reads the messages of lines.

pub(crate) mod action;
pub(crate) mod changes;
pub(crate) mod diagnostic;
pub(crate) mod hook;
pub(crate) mod intent;
pub(crate) mod line;
pub(crate) mod member_fault;
pub(crate) mod members;
pub(crate) mod message;
pub(crate) mod path;
pub(crate) mod timed_stage;
pub(crate) mod totals;
