//! An output of a configuration.

use crate::text::Text;

/// An output of a configuration (JSON Output Format, "Values Representation", `outputs`). The type
/// and the value are stored as JSON text without spaces. They may be large, and each number stays
/// as it was written.
#[derive(Debug, Drop)]
pub struct Output {
    /// The name of the output.
    pub name: Text,
    /// Whether the value must not be shown.
    pub sensitive: bool,
    /// The type, as JSON.
    pub kind: Text,
    /// The value, as JSON.
    pub value: Text,
}
