//! Reads the whole stream of an apply into what a script can repeat of it.
#![tactic(auto)]

mod apply_stream;
mod so_far;
mod stream_fault;
mod unread_line;
mod whole_stream;

pub use apply_stream::ApplyStream;
pub use stream_fault::StreamFault;
pub use whole_stream::read_apply;
