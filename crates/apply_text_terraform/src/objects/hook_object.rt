//! The object `hook` of a message about a step.

ghost use Rattle.std.specs.Prelude.{codes};
ghost use Rattle.std.specs.Option.{option_copied};
ghost use Rattle.apply_text_terraform.specs.Objects.{hook_object};
ghost use Rattle.apply_text.specs.Sending.{Sends, member_tokens};

use crate::objects::resource_object::put_resource;
use apply_model::{Change, StepKind};
use apply_text::parts::{StepWords, put_elapsed, put_id, put_text};
use json::Writer;
use std::alloc::AllocError;

/// Writes the member `hook` of a step of a change, with the object's id and the elapsed seconds if
/// given.
pub fn put_hook(
    out: &mut Writer,
    change: &Change,
    step: StepKind,
    elapsed: Option<u32>,
    id: Option<&str>,
) -> Result<(), AllocError>
    ensures { Sends result out.old out.new
        (member_tokens (codes "hook") (hook_object change.now step elapsed (option_copied id.entry))) }
{
    out.key("hook")?;
    out.begin_object()?;
    put_resource(out, change)?;
    put_text(out, "action", StepWords::new(step).action)?;
    put_id(out, id)?;
    put_elapsed(out, elapsed)?;
    out.end_object()
}
