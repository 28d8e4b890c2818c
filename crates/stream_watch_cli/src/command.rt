//! The tool `watch`.

pub(crate) mod arguments;
pub(crate) mod refusals;
pub(crate) mod settings;
pub(crate) mod tool;
pub(crate) mod when;
