//! Quoted names.

ghost use Rattle.std.specs.Prelude.{◌≡◌, ◌<◌, ◌≤◌, IfOk, IfSome, false, length, option_map};
ghost use Rattle.input_graph.specs.Quoted.{name_end, quote_at, quoted, string_text};

use apply_json::JsonFault;
use apply_json_tree::parse;
use apply_model::Text;
use serde_json::Value;
use std::alloc::{AllocError, Global};

/// A quoted name, and what follows the name on the line.
#[derive(Drop)]
pub struct Quoted<'a> {
    pub name: Text,
    pub rest: &'a [u8],
}

/// Reads the quoted name with which the bytes begin. `None` where they begin with none. `Err` where
/// memory is refused.
pub fn read_quoted(alloc: Global, bytes: &[u8]) -> Result<Option<Quoted<'_>>, AllocError>
    ensures { IfOk result (λ found. option_map (λ found. (found.name, found.rest.now)) found ≡ quoted bytes.now) }
{
    let Some(end) = name_end(bytes) else {
        return Ok(None);
    };
    let (literal, rest) = bytes.split_at(end);
    match read_string(alloc, literal)? {
        Some(name) => Ok(Some(Quoted { name, rest })),
        None => Ok(None),
    }
}

/// The number of bytes of the quoted name with which the bytes begin, with its two quotes.
fn name_end(bytes: &[u8]) -> Option<usize>
    ensures place { result ≡ name_end bytes.now }
    ensures within { IfSome result (λ place. place ≤ length bytes.now) }
{
    let (first, after) = bytes.split_first()?;
    if *first != b'"' {
        return None;
    }
    Some(closing_quote(after)? + 2)
}

/// The number of bytes before the first quote that no backslash escapes.
fn closing_quote(bytes: &[u8]) -> Option<usize>
    ensures place { result ≡ quote_at false bytes.now }
    ensures within { IfSome result (λ place. place < length bytes.now) }
{
    let mut is_escaped = false;
    for (place, byte) in bytes.iter().enumerate() {
        if is_escaped {
            is_escaped = false;
        } else if *byte == b'"' {
            return Some(place);
        } else {
            is_escaped = *byte == b'\\';
        }
    }
    None
}

/// The text of a JSON string. `None` where the bytes are none. `Err` where memory is refused.
fn read_string(alloc: Global, literal: &[u8]) -> Result<Option<Text>, AllocError>
    ensures { IfOk result (λ text. text ≡ string_text literal.now) }
{
    match parse(alloc, literal, literal.len()) {
        Ok(tree) => match tree.as_str() {
            Some(text) => Ok(Some(Text::new(alloc, text)?)),
            None => Ok(None),
        },
        Err(JsonFault::Memory) => Err(AllocError),
        Err(JsonFault::NotJson | JsonFault::TooLarge) => Ok(None),
    }
}
