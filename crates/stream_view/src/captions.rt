//! The sentences of a picture, which its text and its SVG share.

pub(crate) mod diagnostic_lines;
pub(crate) mod heading;
pub(crate) mod left_out;
pub(crate) mod overlap;
pub(crate) mod passed_over;
pub(crate) mod running_alone;
