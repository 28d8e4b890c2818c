//! Counts, durations, and texts for people that are put together piece by piece.
#![tactic(auto)]

mod message_text;
mod ticks;

pub use message_text::MessageText;
