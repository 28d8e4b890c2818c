//! Writes a time line as one JSON object (RFC 8259).

pub(crate) mod drawing;
pub(crate) mod members;
pub(crate) mod objects;
