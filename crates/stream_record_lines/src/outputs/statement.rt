//! What an output states, without its name.

/// What an output states, without its name.
#[derive(Debug, Drop)]
pub struct Statement {
    pub has_action: bool,
    pub is_sensitive: bool,
    pub type_json: Option<String>,
    pub value_json: Option<String>,
}
