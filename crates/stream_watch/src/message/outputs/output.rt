//! An output of a message.

/// An output of a message `outputs` (Machine-Readable UI, "Outputs").
#[derive(Debug, Drop)]
pub struct Output {
    pub name: String,
    /// `action`. `None` if it is missing or no text.
    pub action: Option<String>,
    /// Whether `sensitive` is `true`.
    pub is_sensitive: bool,
    /// `value`, as JSON text: without blanks, numbers as they were written, and strings in the
    /// shortest escapes (RFC 8259). `None` if it is missing.
    pub value: Option<String>,
}
