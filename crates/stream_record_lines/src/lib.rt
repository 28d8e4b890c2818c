//! Reads what each line of an apply's stream states, with all that a script can repeat.
#![tactic(auto)]

mod diagnostic;
mod event;
mod json_member;
mod members;
mod outputs;
mod provisioner;
mod second;
mod shape;
mod stated_line;
mod stated_message;
mod step;
mod summary;

pub use event::Event;
pub use outputs::Outputs;
pub use outputs::output::Output;
pub use provisioner::{Provisioner, ProvisionerStage};
pub use stated_line::{StatedLine, read_stated_line};
pub use stated_message::StatedMessage;
pub use step::{Step, StepStage};
pub use summary::Summary;
