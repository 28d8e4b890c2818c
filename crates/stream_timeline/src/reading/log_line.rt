//! The lines of a log, as they are read.

ghost use Rattle.std.specs.Prelude.{◌≡◌};
ghost use Rattle.stream_timeline.specs.Lines.{log_line};

use crate::reading::details::is_blank_line;
use stream_message::message_text;

/// An object that is no message.
const NO_MESSAGE: &[u8; 2] = b"{}";

/// Returns the line as it is read. With `find` it is the message in the line of a log; a line
/// without one becomes an object that is no message, unless it is blank.
pub fn log_line(find: bool, line: &[u8]) -> &[u8]
    ensures { result.now ≡ log_line find line.now }
{
    if !find || is_blank_line(line) {
        return line;
    }
    match message_text(line) {
        Some(text) => text,
        None => NO_MESSAGE,
    }
}
