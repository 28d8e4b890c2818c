//! Reads an input ahead in a thread, so that a tool can wait for the input with a timeout.
#![tactic(auto)]

mod ahead_pace;
mod ahead_reader;
mod exchange;
mod handover;
mod no_pace;
mod pace;
mod reading;
mod running;
mod stage;

pub use ahead_pace::AheadPace;
pub use ahead_reader::AheadReader;
pub use no_pace::NoPace;
pub use pace::Pace;
pub use running::read_ahead;
