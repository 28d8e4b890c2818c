//! The tool `play`: its options, its exit statuses and what it reports.

pub(crate) mod arguments;
pub(crate) mod choosing;
pub(crate) mod refusals;
pub(crate) mod settings;
pub(crate) mod tool;
