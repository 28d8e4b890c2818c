//! The object `hook` of a message.

ghost use Rattle.std.specs.Prelude.{codes, [], ◌≡◌};
ghost use Rattle.std.specs.Option.{option_copied};
ghost use Rattle.apply_text.specs.Objects.{hook_object};
ghost use Rattle.apply_text.specs.Sending.{Sends, elapsed_tokens, id_tokens, member_tokens};

use crate::objects::member::{put_number, put_text};
use crate::objects::resource_object::put_resource;
use crate::step_words::StepWords;
use apply_model::{Change, StepKind};
use json::Writer;
use std::alloc::AllocError;

/// Writes the member `hook` of a step of a change, with the elapsed seconds and the object's id if
/// given.
pub fn put_hook(
    out: &mut Writer,
    change: &Change,
    step: StepKind,
    elapsed: Option<u32>,
    id: Option<&str>,
) -> Result<(), AllocError>
    ensures { Sends result out.old out.new
        (member_tokens (codes "hook") (hook_object change.now step elapsed (option_copied id.entry))) }
{
    out.key("hook")?;
    out.begin_object()?;
    put_text(out, "action", StepWords::new(step).action)?;
    put_elapsed(out, elapsed)?;
    put_id(out, id)?;
    put_resource(out, change)?;
    out.end_object()
}

/// Writes the member `elapsed_seconds`. Nothing for `None`.
pub fn put_elapsed(out: &mut Writer, elapsed: Option<u32>) -> Result<(), AllocError>
    ensures { Sends result out.old out.new (elapsed_tokens elapsed) }
{
    match elapsed {
        Some(seconds) => put_number(out, "elapsed_seconds", seconds as u64),
        None => Ok(()),
    }
}

/// Writes the members `id_key` and `id_value`. Nothing for `None`.
pub fn put_id(out: &mut Writer, id: Option<&str>) -> Result<(), AllocError>
    ensures { Sends result out.old out.new (id_tokens (option_copied id.entry)) }
{
    match id {
        Some(id) => {
            put_text(out, "id_key", "id")?;
            put_text(out, "id_value", id)
        }
        None => Ok(()),
    }
}
