//! What else is known of the apply.

/// What else is known of the apply.
#[derive(Clone, Copy, Debug, PartialEq, Eq)]
pub struct Circumstances {
    /// Whether the stream is in the default form: its version has the `ui` `1.0`.
    pub is_default_form: bool,
    /// Whether the plan is partial.
    pub is_partial: bool,
    /// Whether the plan is errored.
    pub is_errored: bool,
    /// The second of the last message, if the stream was cut off.
    pub cut_off_at: Option<i64>,
}
