//! What all forms of a stream share: words, texts, templates and the members that do not depend on
//! the order of members.

pub use crate::applied_step::{AppliedStep, DiagTexts};
pub use crate::cached_parts::cached_step::CachedStep;
pub use crate::cached_parts::hook_fields::HookFields;
pub use crate::cached_parts::hook_template::hook_front;
pub use crate::cached_parts::line_template::LineTemplate;
pub use crate::cached_parts::line_templates::LineTemplates;
pub use crate::cached_parts::progress_template::progress_front;
pub use crate::cached_parts::step_point::StepPoint;
pub use crate::cached_parts::step_texts::StepTexts;
pub use crate::display::elapsed::Elapsed;
pub use crate::display::id_suffix::IdSuffix;
pub use crate::messages::{level, type_name, write_event_text};
pub use crate::objects::hook_object::{put_elapsed, put_id};
pub use crate::objects::key_value::put_key;
pub use crate::objects::member::{put_number, put_text};
pub use crate::objects::message_object::end_message;
pub use crate::objects::provisioner_object::put_output;
pub use crate::step_words::{StepWords, phase_words};
