//! Draws a picture as an SVG.

pub(crate) mod concurrency;
pub(crate) mod dimensions;
pub(crate) mod drawing;
pub(crate) mod footer;
pub(crate) mod fragment;
pub(crate) mod header;
pub(crate) mod legend;
pub(crate) mod markup;
pub(crate) mod markup_part;
pub(crate) mod row;
pub(crate) mod rows;
pub(crate) mod scale;
pub(crate) mod style;
