//! Nodes that delete an object whose key is drawn.

ghost use Rattle.std.specs.Prelude.{◌≡◌, ◌==◌, ◌≤◌, IfOk, length, option_map, string_bytes};
ghost use Rattle.std.specs.List.{position_or_len};
ghost use Rattle.std.specs.Str.{IsCharBoundary};
ghost use Rattle.input_graph.specs.StepNodes.{current_delete, is_deposed_delete, last_opening};

use memchr::{memchr, memrchr};
use std::alloc::{AllocError, Global};

/// The name `ADDRESS (destroy)` for a name `ADDRESS (destroy deposed KEY)`, where KEY has no
/// parenthesis. `None` for any other name. `Err` where memory is refused.
pub fn current_delete(alloc: Global, name: &str) -> Result<Option<String>, AllocError>
    ensures { IfOk result (λ current. option_map string_bytes current ≡ current_delete name.now) }
{
    let (front, end) = name.split_at(last_opening(name));
    if !is_deposed_delete(end.as_bytes()) {
        return Ok(None);
    }
    let mut current = String::from_str(alloc, front)?;
    current.push_str("(destroy)")?;
    Ok(Some(current))
}

/// Where the last `(` of a name is. 0 where there is none.
fn last_opening(name: &str) -> usize
    ensures value { result ≡ last_opening name.now }
    ensures boundary { IsCharBoundary name.now result }
{
    memrchr(b'(', name.as_bytes()).unwrap_or(0)
}

/// Whether the bytes are `(destroy deposed KEY)`, where KEY has no `)`.
fn is_deposed_delete(bytes: &[u8]) -> bool
    ensures { result ≡ is_deposed_delete bytes.now }
{
    bytes.starts_with(b"(destroy deposed ") && first_closing(bytes) + 1 == bytes.len()
}

/// How many bytes come before the first `)`, or all of them if there is none.
fn first_closing(bytes: &[u8]) -> usize
    ensures value { result ≡ position_or_len (λ byte. byte == 41) bytes.now }
    ensures bound { result ≤ length bytes.now }
{
    memchr(b')', bytes).unwrap_or(bytes.len())
}
