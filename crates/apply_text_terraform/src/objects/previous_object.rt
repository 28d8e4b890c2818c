//! The object `previous_resource` of a planned change.

ghost use Rattle.std.specs.Prelude.{codes};
ghost use Rattle.apply_text_terraform.specs.Objects.{previous_object};
ghost use Rattle.apply_text.specs.Sending.{Sends, member_tokens};

use apply_model::PreviousResource;
use apply_text::parts::{put_key, put_text};
use json::Writer;
use std::alloc::AllocError;

/// Writes the member `previous_resource`: the resource that the object was before its move.
pub fn put_previous(out: &mut Writer, previous: &PreviousResource) -> Result<(), AllocError>
    ensures { Sends result out.old out.new
        (member_tokens (codes "previous_resource") (previous_object previous.now)) }
{
    out.key("previous_resource")?;
    out.begin_object()?;
    put_text(out, "addr", previous.address.as_str())?;
    put_text(out, "module", previous.module_address.as_str())?;
    put_text(out, "resource", previous.resource.as_str())?;
    put_text(out, "implied_provider", previous.provider())?;
    put_text(out, "resource_type", previous.kind_name.as_str())?;
    put_text(out, "resource_name", previous.name.as_str())?;
    out.key("resource_key")?;
    put_key(out, &previous.key)?;
    out.end_object()
}
