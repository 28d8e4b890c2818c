//! Writes a picture as Markdown, for the comment of a pull request.

pub(crate) mod cutting;
pub(crate) mod drawing;
pub(crate) mod extent;
pub(crate) mod fence;
pub(crate) mod inside;
pub(crate) mod writing;
