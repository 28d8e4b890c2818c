//! The object `change` of a planned change.

ghost use Rattle.std.specs.Prelude.{codes};
ghost use Rattle.std.specs.Option.{option_copied};
ghost use Rattle.apply_text_terraform.specs.Objects.{change_object};
ghost use Rattle.apply_text_terraform.specs.Sending.{importing_tokens, previous_tokens};
ghost use Rattle.apply_text.specs.Sending.{Sends, member_tokens};

use crate::objects::previous_object::put_previous;
use crate::objects::resource_object::put_resource;
use crate::objects::text_member::put_text_if;
use apply_model::{Change, ChangeDetails, Importing, PreviousResource};
use apply_text::parts::put_text;
use json::Writer;
use std::alloc::AllocError;

/// Writes the member `change`: the planned action, and the details of the plan.
pub fn put_change(
    out: &mut Writer,
    change: &Change,
    word: &str,
    details: &ChangeDetails,
) -> Result<(), AllocError>
    ensures { Sends result out.old out.new
        (member_tokens (codes "change") (change_object change.now word.now details.now)) }
{
    out.key("change")?;
    out.begin_object()?;
    put_resource(out, change)?;
    put_previous_if(out, details.previous.as_ref())?;
    put_text(out, "action", word)?;
    put_text_if(out, "reason", details.reason_word())?;
    put_importing(out, details.importing.as_ref())?;
    put_text_if(out, "generated_config", details.generated_config())?;
    out.end_object()
}

/// Writes the member `previous_resource`. Nothing when the object was not moved.
pub fn put_previous_if(
    out: &mut Writer,
    previous: Option<&PreviousResource>,
) -> Result<(), AllocError>
    ensures { Sends result out.old out.new (previous_tokens (option_copied previous.entry)) }
{
    match previous {
        Some(previous) => put_previous(out, previous),
        None => Ok(()),
    }
}

/// Writes the member `importing`. Nothing when the change imports nothing.
fn put_importing(out: &mut Writer, importing: Option<&Importing>) -> Result<(), AllocError>
    ensures { Sends result out.old out.new (importing_tokens (option_copied importing.entry)) }
{
    match importing {
        Some(importing) => {
            out.key("importing")?;
            out.begin_object()?;
            put_text_if(out, "id", importing.id())?;
            out.end_object()
        }
        None => Ok(()),
    }
}
