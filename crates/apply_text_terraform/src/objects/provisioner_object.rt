//! The object `hook` of a message about a provisioner.

ghost use Rattle.std.specs.Prelude.{codes};
ghost use Rattle.std.specs.Option.{option_copied};
ghost use Rattle.apply_text_terraform.specs.Objects.{provisioner_object};
ghost use Rattle.apply_text.specs.Sending.{Sends, member_tokens};

use crate::objects::resource_object::put_resource;
use apply_model::Change;
use apply_text::parts::{put_output, put_text};
use json::Writer;
use std::alloc::AllocError;

/// Writes the member `hook` of a message about a provisioner, with a line of its output if given.
pub fn put_provisioner(
    out: &mut Writer,
    change: &Change,
    name: &str,
    output: Option<&str>,
) -> Result<(), AllocError>
    ensures { Sends result out.old out.new
        (member_tokens (codes "hook") (provisioner_object change.now name.now (option_copied output.entry))) }
{
    out.key("hook")?;
    out.begin_object()?;
    put_resource(out, change)?;
    put_text(out, "provisioner", name)?;
    put_output(out, output)?;
    out.end_object()
}
