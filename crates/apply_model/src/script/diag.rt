//! Diagnostics that a script states.

use crate::text::Text;

/// The text of an error or a warning of a step (Machine-Readable UI, "Diagnostic").
#[derive(Debug, Drop)]
pub struct Diag {
    /// A short text. It may be empty.
    pub summary: Text,
    /// A longer text. It may be empty.
    pub detail: Text,
    /// The place in the configuration, as the text of a JSON object (RFC 8259) without blanks.
    /// Numbers and members stand as they were read.
    pub range: Option<Text>,
    /// The code at that place, as the text of a JSON object, likewise without blanks.
    pub snippet: Option<Text>,
}
