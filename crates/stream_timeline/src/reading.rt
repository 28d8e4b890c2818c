//! Reads the lines of a stream into a time line.

pub(crate) mod builder;
pub(crate) mod content;
pub(crate) mod details;
pub(crate) mod diagnostic;
pub(crate) mod diagnostics;
pub(crate) mod limits;
pub(crate) mod log_line;
pub(crate) mod open_places;
pub(crate) mod provisioner;
pub(crate) mod step;
pub(crate) mod step_messages;
pub(crate) mod texts;
pub(crate) mod time_lines;
pub(crate) mod time_range;
pub(crate) mod timeline;
pub(crate) mod timeline_fault;
pub(crate) mod totals;
pub(crate) mod version;
pub(crate) mod whole_stream;
