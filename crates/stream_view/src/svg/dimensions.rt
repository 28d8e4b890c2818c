//! The dimensions of the SVG.

/// The width of the SVG, in pixels.
pub const WIDTH: u64 = 1_200;

/// The margin at each edge, in pixels.
pub const EDGE: u64 = 16;

/// The heights of a row and of the bar in it, in pixels.
pub const ROW: u64 = 20;

pub const BAR: u64 = 12;

/// The width of a character, in tenths of a pixel.
pub const CHARACTER: u64 = 72;

/// The least width of a label, in columns.
pub const LEAST_LABEL: usize = 8;

/// The least width of a bar, in tenths of a pixel.
pub const LEAST_BAR: u64 = 15;

/// With more rows than these, the axis is repeated below the rows.
pub const ROWS_IN_SIGHT: usize = 25;
