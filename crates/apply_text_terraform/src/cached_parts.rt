//! Texts that stay the same from line to line. With them a line costs a few copies.

pub mod hook_template;
pub mod progress_template;
