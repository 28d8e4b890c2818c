//! The JSON lines of the default form: one message of the Machine-Readable UI for each event.
#![tactic(auto)]

mod applied_step;
mod cached_parts;
mod display;
mod line_buffer;
mod lines;
mod messages;
mod objects;
mod operation;
pub mod parts;
mod start;
mod step_words;

pub use display::elapsed::elapsed_text;
pub use line_buffer::LineBuffer;
pub use lines::{event_line, summary_line, version_line};
pub use operation::Operation;
pub use start::{MomentError, Start};
