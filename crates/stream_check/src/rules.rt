//! The rules: which message may follow which.

pub(crate) mod address_state;
pub(crate) mod checker;
pub(crate) mod ending;
pub(crate) mod fault;
pub(crate) mod limits;
pub(crate) mod message_rules;
pub(crate) mod mode;
pub(crate) mod open_entry;
pub(crate) mod open_steps;
pub(crate) mod pending;
pub(crate) mod piece;
pub(crate) mod tally;
pub(crate) mod unbegun;
