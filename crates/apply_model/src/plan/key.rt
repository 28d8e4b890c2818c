//! Instance keys.

use crate::text::Text;

/// The instance key of a resource under `count` or `for_each`
/// (JSON Output Format, "Values Representation", `index`).
#[derive(Debug, Drop)]
pub enum Key {
    /// The resource has neither `count` nor `for_each`.
    None,
    /// An instance of `count`.
    Number(i64),
    /// An instance of `for_each`. The text may be empty.
    Name(Text),
}
