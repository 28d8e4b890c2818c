//! The JSON lines of Terraform's form: each message in Terraform's own bytes.
#![tactic(auto)]

mod cached_parts;
mod command;
mod escaping;
mod form;
mod hook_fields;
mod laws;
mod messages;
mod objects;
mod outputs;
pub mod parts;
mod planned;
mod severity_words;
mod terraform_buffer;
mod timestamp;
mod verbatim_members;

pub use apply_model::{ChangeDetails, Importing, Note, Output, PreviousResource, Reason, Severity};
pub use command::Command;
pub use form::Form;
pub use laws::{
    a_line_has_no_bracket, a_line_has_no_separator, a_line_has_one_line_feed,
    no_sensitive_value_is_told,
};
pub use terraform_buffer::TerraformBuffer;
