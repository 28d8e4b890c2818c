//! The forms of a stream: what builds its lines.

pub mod form_lines;
pub mod plain_lines;
pub mod terraform_extras;
pub mod terraform_lines;
