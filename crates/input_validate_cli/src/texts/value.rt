//! Values of an input, as they are printed.
//!
//! Every `Err` means that memory was refused.

use serde_json::Value;
use std::alloc::{AllocError, Global};
use term_text::{ShownText, fitted};

/// How many columns of a text or a number are printed.
const MOST_COLUMNS: usize = 60;

/// Describes a value: a text or a number as JSON, anything else by its kind.
pub fn value_text(alloc: Global, value: &Value) -> Result<String, AllocError> {
    match value {
        Value::Null => String::from_str(alloc, "null"),
        Value::Bool(true) => String::from_str(alloc, "true"),
        Value::Bool(false) => String::from_str(alloc, "false"),
        Value::Array(items) => {
            let count = items.len();
            format!(in alloc; "an array of {count}")
        }
        Value::Object(_) => String::from_str(alloc, "an object"),
        Value::Number(_) | Value::String(_) => shortened_json(alloc, value),
    }
}

/// Makes the JSON of a value, shortened in its middle to 60 columns.
pub fn shortened_json(alloc: Global, value: &Value) -> Result<String, AllocError> {
    let text = value.to_string(alloc)?;
    let whole = ShownText::of(alloc, text.as_str().as_bytes())?;
    let short = fitted(alloc, &whole, MOST_COLUMNS)?;
    short.characters().iter().copied().collect(alloc)
}

/// Makes the JSON of a value. Control characters are escaped, so it steers no terminal.
pub fn json_text(alloc: Global, value: &Value) -> Result<String, AllocError> {
    let text = value.to_string(alloc)?;
    term_text::escape_controls(alloc, text.as_str().as_bytes())
}
