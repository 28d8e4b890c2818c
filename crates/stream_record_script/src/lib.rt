//! Makes the script of an apply's stream, and the warnings of what the script does not say.
#![tactic(auto)]

mod outputs;
mod recording;
mod recording_fault;
mod runs;
mod steps;
mod told_outputs;

pub use recording::{Recording, Wishes, recording_of};
pub use recording_fault::RecordingFault;
