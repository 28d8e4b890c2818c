//! The layout of bars: places on an axis, and how many steps ran at once in each cell.

pub(crate) mod halves;
pub(crate) mod levels;
pub(crate) mod scale;
