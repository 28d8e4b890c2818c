//! What further lines of Terraform's form are made of: timestamps, words, and members that messages
//! share. `TerraformBuffer::begin_line` and `end_line` put such a line behind others.

pub use crate::messages::{begin_message, put_event, put_planned};
pub use crate::objects::change_object::{put_change, put_previous_if};
pub use crate::objects::hook_object::put_hook;
pub use crate::objects::resource_object::put_resource;
pub use crate::planned::planned_word;
pub use crate::timestamp::UtcTimestamp;
