//! The object `resource` of a hook.

ghost use Rattle.std.specs.Prelude.{codes};
ghost use Rattle.apply_text.specs.Objects.{resource_object};
ghost use Rattle.apply_text.specs.Sending.{Sends, member_tokens};

use crate::objects::key_value::put_key;
use crate::objects::member::put_text;
use apply_model::Change;
use json::Writer;
use std::alloc::AllocError;

/// Writes the member `resource`, which names the resource of `change`.
pub fn put_resource(out: &mut Writer, change: &Change) -> Result<(), AllocError>
    ensures { Sends result out.old out.new
        (member_tokens (codes "resource") (resource_object change.now)) }
{
    out.key("resource")?;
    out.begin_object()?;
    put_text(out, "addr", change.address())?;
    put_text(out, "implied_provider", change.provider())?;
    put_text(out, "module", change.module())?;
    put_text(out, "resource", change.resource())?;
    out.key("resource_key")?;
    put_key(out, change.key())?;
    put_text(out, "resource_name", change.name())?;
    put_text(out, "resource_type", change.kind_name())?;
    out.end_object()
}
