//! Tells messages by the rows of their types.

pub(crate) mod after_refreshes;
pub(crate) mod diagnostic;
pub(crate) mod outputs;
pub(crate) mod planned;
pub(crate) mod provisioner;
pub(crate) mod refresh;
pub(crate) mod snippet;
pub(crate) mod step;
pub(crate) mod summary;
