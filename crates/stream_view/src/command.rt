//! The tool `view`: its options, its exit statuses and what it reports.

pub(crate) mod arguments;
pub(crate) mod choosing;
pub(crate) mod colour;
pub(crate) mod conflicts;
pub(crate) mod drawing;
pub(crate) mod drawn;
pub(crate) mod form;
pub(crate) mod picture_fault;
pub(crate) mod refusals;
pub(crate) mod settings;
pub(crate) mod suggesting;
pub(crate) mod tool;
