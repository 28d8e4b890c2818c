//! An output that a script can repeat.

use apply_model::Text;

/// An output with a type and without an action (Machine-Readable UI, "Outputs"). JSON texts have no
/// blanks, numbers as they were written, and strings in the shortest escapes (RFC 8259).
#[derive(Debug, Drop)]
pub struct Output {
    pub name: Text,
    /// Whether `sensitive` is `true`.
    pub is_sensitive: bool,
    /// `type`, as JSON text. It is not `null`.
    pub type_json: Text,
    /// `value`, as JSON text. `None` if it is missing.
    pub value_json: Option<Text>,
}
