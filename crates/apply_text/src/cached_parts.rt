//! Texts that stay the same from line to line. With them a line costs a few copies.

pub mod cached_date;
pub mod cached_step;
pub mod hook_fields;
pub mod hook_template;
pub mod key;
pub mod line_template;
pub mod line_templates;
pub mod progress_template;
pub mod step_point;
pub mod step_texts;
pub mod template_cache;
pub mod unterminated;
