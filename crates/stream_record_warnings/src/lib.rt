//! The warnings of what a recorded script does not repeat, a line each.
#![tactic(auto)]

mod lines;
mod names;
mod steps;
mod stream;

pub use lines::{begin, end};
pub use names::{push_step, step_at};
pub use steps::push_step_warnings;
pub use stream::push_stream_warnings;
