//! Reads a stream line by line, in the memory of one line.
#![tactic(auto)]

mod draining;
mod failed_read;
mod limits;
mod line;
mod line_fault;
mod line_reader;
mod reading;

pub use draining::drain;
pub use failed_read::FailedRead;
pub use limits::MAX_BYTES;
pub use line::{Line, LineEnd};
pub use line_fault::LineFault;
pub use line_reader::next_line;
pub use reading::read_once;
