//! The JSON objects of messages, written token by token into the buffer of a line. Every `Err`
//! means that memory was refused.

pub mod changes_object;
pub mod diagnostic_object;
pub mod hook_object;
pub mod key_value;
pub mod member;
pub mod message_object;
pub mod provisioner_object;
pub mod resource_object;
