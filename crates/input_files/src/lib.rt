//! Reads whole inputs: files, and standard input.
#![tactic(auto)]

mod named;
mod read_fault;
mod reading;

pub use named::{InputFault, read_named};
pub use read_fault::ReadFault;
pub use reading::{MAX_BYTES, ReadInput, read_all};
