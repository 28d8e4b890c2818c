//! Draws a picture as a text.

pub(crate) mod axis;
pub(crate) mod bar;
pub(crate) mod chart;
pub(crate) mod concurrency;
pub(crate) mod drawing;
pub(crate) mod line;
pub(crate) mod line_buffer;
pub(crate) mod line_piece;
pub(crate) mod longest;
pub(crate) mod rendition;
pub(crate) mod row;
pub(crate) mod writing;
