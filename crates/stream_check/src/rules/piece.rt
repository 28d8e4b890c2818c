//! The text of a line's message.

ghost use Rattle.std.specs.Prelude.{◌≤◌, ◌≡◌, IfOk, IfSome, length};
ghost use Rattle.std.specs.Option.{option_copied};
ghost use Rattle.stream_check.specs.Pieces.{piece_of};
ghost use Rattle.stream_check.specs.Results.{mapped};

use crate::rules::fault::Fault;
use stream_message::{from_mark, through_brace};

/// Returns the text of the line's message. Without `find` it is the whole line. Else it reaches
/// from the first start of a message to the last closing brace; `None` where no message starts.
/// `Err` with `Fault::NotJson` where no brace closes the message.
pub fn piece_of(find: bool, text: &[u8]) -> Result<Option<&[u8]>, Fault>
    ensures value { mapped option_copied result ≡ piece_of find text.now }
    ensures bytes { IfOk result (λ found. IfSome found (λ piece. length piece.now ≤ length text.now)) }
{
    if !find {
        return Ok(Some(text));
    }
    let Some(rest) = from_mark(text) else {
        return Ok(None);
    };
    match through_brace(rest) {
        Some(piece) => Ok(Some(piece)),
        None => Err(Fault::NotJson),
    }
}
