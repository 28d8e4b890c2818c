//! What an output states, without its name.

/// What an output states, without its name.
#[derive(Debug, Drop)]
pub struct Statement {
    pub action: Option<String>,
    pub is_sensitive: bool,
    pub value: Option<String>,
}
