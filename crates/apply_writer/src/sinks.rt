//! The sinks: where the bytes of a stream go.

pub mod memory_sink;
pub mod sink;
pub mod std_sink;
