//! The JSON objects of messages, written token by token into the buffer of a line. Every `Err`
//! means that memory was refused.

pub mod change_object;
pub mod changes_object;
pub mod diagnostic_object;
pub mod hook_object;
pub mod previous_object;
pub mod provisioner_object;
pub mod resource_object;
pub mod text_member;
