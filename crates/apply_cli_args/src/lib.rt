//! Reads the command line of the main command into settings.
#![tactic(auto)]

mod arguments;
mod halt;
mod invocation;
mod misplaced;
mod present;
mod settings;
mod terraform_command;
mod tips;
mod usage;
mod version;

pub use arguments::read_words;
pub use halt::Halt;
pub use invocation::{Invocation, read_invocation};
pub use misplaced::Misplaced;
pub use settings::Settings;
pub use usage::Usage;
pub use version::VERSION;
