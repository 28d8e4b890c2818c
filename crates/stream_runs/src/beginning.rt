//! Where a run begins.

ghost use Rattle.std.specs.Prelude.{◌≡◌, IfOk};
ghost use Rattle.std.specs.Option.{option_copied};
ghost use Rattle.stream_message.specs.Runs.{begins_run, text_in};

use apply_json::{JsonFault, Scratch};
use std::alloc::{AllocError, Global};
use stream_message::{message_text, read_head};

/// Whether a run begins with the line: its message is a `version`. With `find` the line is one of a
/// log, and the message is located in it first. `scratch` grows to the length of the line. `Err`
/// where memory is refused.
pub fn begins_run(
    alloc: Global,
    scratch: &mut Scratch,
    find: bool,
    line: &[u8],
) -> Result<bool, AllocError>
    ensures { IfOk result (λ begins. begins ≡ begins_run find line.now) }
{
    let Some(text) = text_in(find, line) else {
        return Ok(false);
    };
    match read_head(alloc, scratch, text) {
        Ok(head) => Ok(head.is_version()),
        Err(JsonFault::Memory) => Err(AllocError),
        Err(JsonFault::TooLarge | JsonFault::NotJson) => Ok(false),
    }
}

/// Returns the text of the line's message. In a log it is located; `None` where none starts.
fn text_in(find: bool, line: &[u8]) -> Option<&[u8]>
    ensures { option_copied result ≡ text_in find line.now }
{
    if find { message_text(line) } else { Some(line) }
}
