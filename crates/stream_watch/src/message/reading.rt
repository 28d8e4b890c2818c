//! Reads the message of a line. Every `Err` means that memory was refused.

ghost use Rattle.std.specs.Prelude.{◌≡◌, IfOk, option_map};
ghost use Rattle.std.specs.Option.{option_and_then, option_copied};
ghost use Rattle.serde_json.specs.View.{view};
ghost use Rattle.apply_json.specs.Tree.{tree_of};
ghost use Rattle.apply_json_tree.specs.Trimmed.{trimmed};
ghost use Rattle.stream_watch.specs.Reading.{if_typed, message_of, text_in};
ghost use Rattle.stream_watch.specs.Shape.{message_selection};

use crate::message::shape::MessageShape;
use apply_json::{JsonFault, Scratch};
use apply_json_tree::members::text_member;
use apply_json_tree::parse_trimmed;
use serde_json::Value;
use std::alloc::{AllocError, Global};
use stream_message::message_text;

/// Reads the message of a line: of its members those that [`MessageShape`] selects. With `find` the
/// line is that of a log, and the message is located in it first. `scratch` grows to the length of
/// the line.
///
/// `None` if the line has no message: it is no JSON, no object, or has no text `type`.
pub fn read_message(
    alloc: Global,
    scratch: &mut Scratch,
    find: bool,
    line: &[u8],
) -> Result<Option<Value>, AllocError>
    ensures { IfOk result (λ found. option_map view found ≡ message_of find line.now) }
{
    match text_in(find, line) {
        Some(text) => message_in(alloc, scratch, text),
        None => Ok(None),
    }
}

/// Returns the text of the line's message, which is located first in a log.
pub(crate) fn text_in(find: bool, line: &[u8]) -> Option<&[u8]>
    ensures { option_copied result ≡ text_in find line.now }
{
    if find { message_text(line) } else { Some(line) }
}

/// Reads the message of a text.
pub(crate) fn message_in(
    alloc: Global,
    scratch: &mut Scratch,
    text: &[u8],
) -> Result<Option<Value>, AllocError>
    ensures { IfOk result (λ found. option_map view found
        ≡ option_map (trimmed message_selection MessageShape.Message) (option_and_then if_typed (tree_of text.now))) }
{
    match parse_trimmed(alloc, scratch, text, text.len(), MessageShape::Message) {
        Ok(tree) => Ok(if_typed(tree)),
        Err(JsonFault::Memory) => Err(AllocError),
        Err(JsonFault::TooLarge | JsonFault::NotJson) => Ok(None),
    }
}

/// Returns the tree, if it has a text `type`.
fn if_typed(tree: Value) -> Option<Value>
    ensures { option_map view result ≡ if_typed (view tree) }
{
    if text_member(&tree, "type").is_some() {
        Some(tree)
    } else {
        None
    }
}
