//! The outputs of a message.

pub mod each;
pub mod output;
pub mod output_slots;
pub mod repeatable;
pub mod statement;

ghost use Rattle.std.specs.Prelude.{◌≡◌, IfOk};
ghost use Rattle.stream_record_lines.specs.Outputs.{outputs_of};

use crate::json_member::read_member_json;
use crate::outputs::each::read_each;
use crate::outputs::output::Output;
use apply_json::Scratch;
use std::alloc::{AllocError, Global};
use std::marker::Model;

/// Outputs in the order of their message. Contracts see a list.
#[derive(Debug, Drop)]
pub struct Outputs {
    outputs: Vec<Output>,
}

impl Model for Outputs {
    ghost use Rattle.std.specs.Prelude.{List};
    ghost use Rattle.stream_record_lines.specs.declared.outputs.output.Output.{Output};

    ghost Value = { List Output };

    ghost view = { λ it. it.outputs.items };
}

impl Outputs {
    /// These outputs, in this order.
    pub fn new(outputs: Vec<Output>) -> Outputs
        ensures { result ≡ outputs.items }
    {
        Outputs { outputs }
    }

    /// The outputs, in their order.
    pub fn as_slice(&self) -> &[Output]
        ensures { result.now ≡ self.now }
    {
        self.outputs.as_slice()
    }
}

/// Reads the outputs of a message's text that have a type and no action, in their order. An output
/// whose name stood before takes that one's place. `scratch` grows to the length of the text.
///
/// There are no outputs if the message has no object `outputs`. `Err` where memory is refused.
pub fn read_outputs(
    alloc: Global,
    scratch: &mut Scratch,
    text: &[u8],
) -> Result<Outputs, AllocError>
    ensures { IfOk result (λ outputs. outputs ≡ outputs_of text.now) }
{
    match read_member_json(alloc, scratch, "outputs", text)? {
        Some(json) => Ok(Outputs::new(read_each(alloc, scratch, json.as_str())?)),
        None => Ok(Outputs::new(Vec::new(alloc))),
    }
}
