//! An output of a script.

use apply_model::Text;

/// An output of a script. JSON texts (RFC 8259) are written as they are.
#[derive(Debug, Drop)]
pub struct Output {
    pub name: Text,
    /// Whether the value must not be shown.
    pub is_sensitive: bool,
    /// The type, as JSON text.
    pub type_json: Text,
    /// The value, as JSON text. `None` if it is not known.
    pub value_json: Option<Text>,
}
