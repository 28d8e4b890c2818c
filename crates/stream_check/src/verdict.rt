//! The verdict on a stream.

pub(crate) mod finding;
pub(crate) mod from_lines;
pub(crate) mod from_reader;
pub(crate) mod judge;
pub(crate) mod laws;
pub(crate) mod read_fault;
pub(crate) mod whole;
