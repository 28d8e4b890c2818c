//! What lines state.

ghost use Rattle.std.specs.Prelude.{◌≡◌, IfOk};
ghost use Rattle.std.specs.Option.{option_copied};
ghost use Rattle.stream_message.specs.Runs.{text_in};
ghost use Rattle.stream_record_lines.specs.Lines.{stated_line, without_message};

use crate::stated_message::{StatedMessage, read_message};
use apply_json::Scratch;
use std::alloc::{AllocError, Global};
use stream_message::{from_mark, message_text};

/// What a line of the stream of an apply states.
#[derive(Debug, Drop)]
pub enum StatedLine {
    /// A line of a log that another program wrote.
    Foreign,
    NoMessage,
    Message(StatedMessage),
}

/// Reads what a line states. With `find` the line is that of a log, and the message is located in
/// it first: from the first `{"@level"` to the last `}`. `scratch` grows to the length of the line.
///
/// A line is a message if its text is JSON with a text `type`. With `find` a line without
/// `{"@level"` is foreign; any other line is no message. `Err` where memory is refused.
pub fn read_stated_line(
    alloc: Global,
    scratch: &mut Scratch,
    find: bool,
    line: &[u8],
) -> Result<StatedLine, AllocError>
    ensures { IfOk result (λ stated. stated ≡ stated_line find line.now) }
{
    let Some(text) = text_in(find, line) else {
        return Ok(without_message(find, line));
    };
    match read_message(alloc, scratch, text)? {
        Some(message) => Ok(StatedLine::Message(message)),
        None => Ok(without_message(find, line)),
    }
}

/// The text of the line's message, which is located first in a log.
fn text_in(find: bool, line: &[u8]) -> Option<&[u8]>
    ensures { option_copied result ≡ text_in find line.now }
{
    if find { message_text(line) } else { Some(line) }
}

/// A line without a message.
fn without_message(find: bool, line: &[u8]) -> StatedLine
    ensures { result ≡ without_message find line.now }
{
    if find && from_mark(line).is_none() {
        StatedLine::Foreign
    } else {
        StatedLine::NoMessage
    }
}
