//! The words for numbers, durations and ticks.

pub(crate) mod tick_interval;
pub(crate) mod within;
