//! The figures of a stream: how much work was done, and how much of it at once.

pub(crate) mod edge;
pub(crate) mod interval;
pub(crate) mod measures;
pub(crate) mod running;
pub(crate) mod stretch;
pub(crate) mod sweep;
