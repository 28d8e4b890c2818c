//! The object `hook` of a message about a provisioner.

ghost use Rattle.std.specs.Prelude.{codes, [], ◌≡◌};
ghost use Rattle.std.specs.Option.{option_copied};
ghost use Rattle.apply_text.specs.Objects.{provisioner_object};
ghost use Rattle.apply_text.specs.Sending.{Sends, member_tokens, output_tokens};

use crate::objects::member::put_text;
use crate::objects::resource_object::put_resource;
use apply_model::Change;
use json::Writer;
use std::alloc::AllocError;

/// Writes the member `hook` of a message about a provisioner, with a line of its output if given.
pub fn put_provisioner(
    out: &mut Writer,
    change: &Change,
    name: &str,
    output: Option<&str>,
) -> Result<(), AllocError>
    ensures { Sends result out.old out.new
        (member_tokens (codes "hook") (provisioner_object change.now name.now (option_copied output.entry))) }
{
    out.key("hook")?;
    out.begin_object()?;
    put_output(out, output)?;
    put_text(out, "provisioner", name)?;
    put_resource(out, change)?;
    out.end_object()
}

/// Writes the member `output`. Nothing for `None`.
pub fn put_output(out: &mut Writer, output: Option<&str>) -> Result<(), AllocError>
    ensures { Sends result out.old out.new (output_tokens (option_copied output.entry)) }
{
    match output {
        Some(output) => put_text(out, "output", output),
        None => Ok(()),
    }
}
