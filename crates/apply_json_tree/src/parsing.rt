//! Parses bytes into a tree.

ghost use Rattle.std.specs.Prelude.{◌≡◌, ◌≤◌, length, IfOk, IfErr, Some};
ghost use Rattle.serde_json.specs.View.{view};
ghost use Rattle.apply_json.specs.Parsed.{IsNoTree};
ghost use Rattle.apply_json.specs.Tree.{tree_of};
ghost use Rattle.apply_json_tree.specs.Trimmed.{IsTrimmedTree};

use crate::shape::Shape;
use crate::trimming::read_trimmed;
use apply_json::{JsonFault, Scratch, text_of};
use serde_json::Value;
use std::alloc::Global;

/// Parses bytes into a tree. `Err` is one of these:
/// - `JsonFault::TooLarge`: there are more than `most` bytes.
/// - `JsonFault::NotJson`: the bytes are not UTF-8 or not JSON (RFC 8259), or values nest more than
///   127 deep.
/// - `JsonFault::Memory`: memory was refused.
pub fn parse(alloc: Global, bytes: &[u8], most: usize) -> Result<Value, JsonFault>
    ensures ok { IfOk result
        (λ tree. (length bytes.now ≤ most) × (tree_of bytes.now ≡ Some (view tree))) }
    ensures err { IfErr result (λ fault. IsNoTree most fault bytes.now) }
{
    let text = text_of(bytes, most)?;
    match Value::from_str(alloc, text) {
        Ok(tree) => Ok(tree),
        Err(error) => if error.is_memory() {
            Err(JsonFault::Memory)
        } else {
            Err(JsonFault::NotJson)
        },
    }
}

/// Parses bytes into a tree that has only the members and items that `shape` selects.
///
/// Skipped parts take no memory, but are checked like the rest. `scratch` grows to the length of
/// the bytes, and can be used again for the next call. `Err` is as in [`parse`].
pub fn parse_trimmed<S: Shape>(
    alloc: Global,
    scratch: &mut Scratch,
    bytes: &[u8],
    most: usize,
    shape: S,
) -> Result<Value, JsonFault>
    ensures ok { IfOk result
        (λ tree. (length bytes.now ≤ most)
        × IsTrimmedTree S.selection shape bytes.now (view tree)) }
    ensures err { IfErr result (λ fault. IsNoTree most fault bytes.now) }
{
    let text = text_of(bytes, most)?;
    match read_trimmed(alloc, scratch, text, shape) {
        Ok(tree) => Ok(tree),
        Err(fault) => Err(JsonFault::of(fault)),
    }
}
