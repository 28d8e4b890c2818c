//! Reads messages. Every `Err` means that memory was refused.

ghost use Rattle.std.specs.Prelude.{◌≡◌, IfOk};
ghost use Rattle.serde_json.specs.View.{view};
ghost use Rattle.stream_record_lines.specs.Lines.{message_in};
ghost use Rattle.stream_record_lines.specs.Messages.{message_of, second_of};

use crate::event::{Event, read_event};
use crate::members::{kind_of, time_of};
use crate::second::nearest_second;
use crate::shape::MessageShape;
use apply_json::{JsonFault, Scratch};
use apply_json_tree::parse_trimmed;
use serde_json::Value;
use std::alloc::{AllocError, Global};

/// What a message states.
#[derive(Debug, Drop)]
pub struct StatedMessage {
    /// The second that is nearest to `@timestamp`, counted from the start of 1970. Half a second
    /// counts as one more. `None` if the message has no valid timestamp.
    pub second: Option<i64>,
    pub event: Event,
}

/// Reads the message of a text. `scratch` grows to the length of the text. `None` if the text is no
/// JSON, or has no text `type`.
pub fn read_message(
    alloc: Global,
    scratch: &mut Scratch,
    text: &[u8],
) -> Result<Option<StatedMessage>, AllocError>
    ensures { IfOk result (λ found. found ≡ message_in text.now) }
{
    match parse_trimmed(alloc, scratch, text, text.len(), MessageShape::Message) {
        Ok(tree) => message_of(alloc, scratch, text, &tree),
        Err(JsonFault::Memory) => Err(AllocError),
        Err(JsonFault::TooLarge | JsonFault::NotJson) => Ok(None),
    }
}

/// Reads the message of a text with this tree.
fn message_of(
    alloc: Global,
    scratch: &mut Scratch,
    text: &[u8],
    tree: &Value,
) -> Result<Option<StatedMessage>, AllocError>
    ensures { IfOk result (λ found. found ≡ message_of text.now (view tree.now)) }
{
    let Some(kind) = kind_of(tree) else {
        return Ok(None);
    };
    let event = read_event(alloc, scratch, text, tree, kind)?;
    Ok(Some(StatedMessage {
        second: second_of(tree),
        event,
    }))
}

/// The nearest second of the timestamp.
fn second_of(tree: &Value) -> Option<i64>
    ensures { result ≡ second_of (view tree.now) }
{
    match time_of(tree) {
        Some(instant) => Some(nearest_second(instant)),
        None => None,
    }
}
