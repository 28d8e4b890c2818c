//! `applystream validate`: the tool that lists the errors of a plan and a script.
#![tactic(auto)]

mod command;
mod input_sizes;
mod texts;

pub use command::arguments::Settings;
pub use command::report_text::report_text;
pub use command::tool::Validate;
pub use command::validate_fault::ValidateFault;
pub use command::validating::validate;
pub use input_sizes::InputSizes;
