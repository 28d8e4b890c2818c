//! Locates messages in the lines of a log.

ghost use Rattle.std.specs.Prelude.{◌≡◌, ◌≤◌, IfOk, IfSome, length};
ghost use Rattle.std.specs.Option.{option_copied};
ghost use Rattle.stream_message.specs.Located.{found_message, from_mark, message_text, through_brace};

use crate::line_head::read_head;
use apply_json::{JsonFault, Scratch};
use memchr::{memmem, memrchr};
use std::alloc::{AllocError, Global};

/// The start of each message of Terraform.
const MARK: &[u8; 9] = b"{\"@level\"";

/// Returns the text from the first start of a message on.
pub fn from_mark(text: &[u8]) -> Option<&[u8]>
    ensures value { option_copied result ≡ from_mark text.now }
    ensures bytes { IfSome result (λ rest. length rest.now ≤ length text.now) }
{
    match memmem::find(text, MARK) {
        Some(start) => Some(text.split_at(start).1),
        None => None,
    }
}

/// Returns the text up to its last closing brace.
pub fn through_brace(text: &[u8]) -> Option<&[u8]>
    ensures value { option_copied result ≡ through_brace text.now }
    ensures bytes { IfSome result (λ piece. length piece.now ≤ length text.now) }
{
    match memrchr(b'}', text) {
        Some(end) => Some(text.split_at(end + 1).0),
        None => None,
    }
}

/// Returns the text of the message in a line of a log, from the first `{"@level"` to the last `}`.
/// `None` if the line has no such text.
pub fn message_text(line: &[u8]) -> Option<&[u8]>
    ensures { option_copied result ≡ message_text line.now }
{
    through_brace(from_mark(line)?)
}

/// Returns the message in a line of a log. `None` if the line has none, or if it has an object
/// without a text `type`: another program wrote that one. A text that is no JSON is returned, since
/// it may be the rest of a message.
///
/// `Err` where memory is refused.
pub fn found_message(alloc: Global, line: &[u8]) -> Result<Option<&[u8]>, AllocError>
    ensures { IfOk result (λ found. option_copied found ≡ found_message line.now) }
{
    let Some(text) = message_text(line) else {
        return Ok(None);
    };
    let mut scratch = Scratch::new(alloc);
    match read_head(alloc, &mut scratch, text) {
        Ok(head) => match head.kind() {
            Some(_) => Ok(Some(text)),
            None => Ok(None),
        },
        Err(JsonFault::Memory) => Err(AllocError),
        Err(JsonFault::TooLarge | JsonFault::NotJson) => Ok(Some(text)),
    }
}
