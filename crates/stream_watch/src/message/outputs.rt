//! Reads the outputs of a message.

pub mod each;
pub mod in_order;
pub mod output;
pub mod output_slots;
pub mod statement;
pub mod text_slot;

ghost use Rattle.std.specs.Prelude.{◌≡◌, [], IfOk, map, option_and_then, unwrap_or};
ghost use Rattle.stream_watch.specs.Outputs.{output_view, outputs_of, outputs_of_text, outputs_text};

use crate::message::outputs::each::read_each;
use crate::message::outputs::output::Output;
use crate::message::outputs::text_slot::read_outputs_text;
use crate::message::reading::text_in;
use apply_json::Scratch;
use std::alloc::{AllocError, Global};

/// Reads the outputs of a line's message, in their order. An output whose name stood before takes
/// that one's place. With `find` the line is that of a log, and the message is located in it first.
/// `scratch` grows to the length of the line.
///
/// There are no outputs if the line has no message, or the message has no object `outputs`. `Err`
/// means that memory was refused.
pub fn read_outputs(
    alloc: Global,
    scratch: &mut Scratch,
    find: bool,
    line: &[u8],
) -> Result<Vec<Output>, AllocError>
    ensures { IfOk result (λ outputs. map output_view outputs.items ≡ outputs_of find line.now) }
{
    match text_in(find, line) {
        Some(text) => outputs_in(alloc, scratch, text),
        None => Ok(Vec::new(alloc)),
    }
}

/// Reads the outputs of a message's text.
fn outputs_in(alloc: Global, scratch: &mut Scratch, text: &[u8]) -> Result<Vec<Output>, AllocError>
    ensures { IfOk result (λ outputs. map output_view outputs.items
        ≡ unwrap_or (option_and_then outputs_of_text (outputs_text text.now)) []) }
{
    match read_outputs_text(alloc, scratch, text)? {
        Some(outputs) => read_each(alloc, scratch, outputs.as_str()),
        None => Ok(Vec::new(alloc)),
    }
}
