//! The tool `check`: its options, its exit statuses and what it reports.

pub(crate) mod arguments;
pub(crate) mod checked;
pub(crate) mod checking;
pub(crate) mod finding_report;
pub(crate) mod findings;
pub(crate) mod keeping;
pub(crate) mod members;
pub(crate) mod message_text;
pub(crate) mod object;
pub(crate) mod objects;
pub(crate) mod reading_on;
pub(crate) mod refusals;
pub(crate) mod settings;
pub(crate) mod status;
pub(crate) mod texts;
pub(crate) mod tool;
pub(crate) mod unreported;
pub(crate) mod verdict_lines;
pub(crate) mod writing;
