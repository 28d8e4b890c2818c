//! The object `outputs` of a plan. Every `Err` means that memory was refused.

ghost use Rattle.std.specs.Prelude.{codes};
ghost use Rattle.serde_json.specs.Data.{object};
ghost use Rattle.apply_text.specs.Sending.{Sends, member_tokens};
ghost use Rattle.apply_text_planning.specs.Objects.{output_members, output_object};

use crate::words::output_word;
use apply_prior::PlannedOutput;
use apply_text::parts::put_text;
use json::Writer;
use std::alloc::AllocError;

/// Writes the member `outputs`, with an object for each output in this order.
pub fn put_outputs(out: &mut Writer, outputs: &[PlannedOutput]) -> Result<(), AllocError>
    ensures { Sends result out.old out.new
        (member_tokens (codes "outputs") (object (output_members outputs.now))) }
{
    out.key("outputs")?;
    out.begin_object()?;
    for output in outputs {
        put_output(out, output)?;
    }
    out.end_object()
}

/// Writes an output.
fn put_output(out: &mut Writer, output: &PlannedOutput) -> Result<(), AllocError>
    ensures { Sends result out.old out.new (member_tokens output.now.name (output_object output.now)) }
{
    out.key(output.name.as_str())?;
    out.begin_object()?;
    out.key("sensitive")?;
    out.boolean(output.sensitive)?;
    put_text(out, "action", output_word(output.action))?;
    out.end_object()
}
