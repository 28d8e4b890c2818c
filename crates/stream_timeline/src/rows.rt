//! Which steps get a row.

pub(crate) mod by_length;
pub(crate) mod choosing;
