//! Which members of a line a tool reads.

/// The members of a line that a tool reads next to `type` and `@timestamp`, which are always read.
/// All others are skipped.
#[derive(Clone, Copy)]
pub struct Selection {
    /// `terraform`, the version.
    pub version: bool,
    /// `hook`.
    pub hook: bool,
    /// `change`.
    pub change: bool,
    /// `changes`.
    pub changes: bool,
    /// `severity` and `address` of `diagnostic`.
    pub diagnostic: bool,
    /// `summary`, `detail` and `range` of `diagnostic`. Without `diagnostic` it selects nothing.
    pub diagnostic_texts: bool,
}
