//! Reads the timestamp of a message.

ghost use Rattle.std.specs.Prelude.{◌≡◌, IfOk};
ghost use Rattle.stream_play.specs.Timestamp.{timestamp_of};

use apply_json::{JsonFault, Scratch};
use std::alloc::{AllocError, Global};
use stream_message::read_head;

/// Returns the timestamp of a line, in microseconds since 1970, the rest cut off. `jiff` reads it
/// from the text `@timestamp` of a message: an object (RFC 8259) with a text `type`.
///
/// `None` where the line is no message, or states no timestamp. `scratch` may be reused for other
/// lines. `Err` where memory is refused.
pub fn timestamp_of(
    alloc: Global,
    scratch: &mut Scratch,
    line: &[u8],
) -> Result<Option<i64>, AllocError>
    ensures { IfOk result (λ timestamp. timestamp ≡ timestamp_of line.now) }
{
    match read_head(alloc, scratch, line) {
        Ok(head) => Ok(head.time()),
        Err(JsonFault::Memory) => Err(AllocError),
        Err(JsonFault::TooLarge | JsonFault::NotJson) => Ok(None),
    }
}
