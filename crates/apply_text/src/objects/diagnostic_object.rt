//! The object `diagnostic` of a message.

ghost use Rattle.std.specs.Prelude.{codes};
ghost use Rattle.apply_text.specs.AppliedStep.{diag_view};
ghost use Rattle.apply_text.specs.Objects.{diagnostic_object};
ghost use Rattle.apply_text.specs.Sending.{Sends, member_tokens};

use crate::applied_step::DiagTexts;
use crate::objects::member::put_text;
use json::Writer;
use std::alloc::AllocError;

/// Writes the member `diagnostic`: an error or a warning about the resource with that address.
pub fn put_diagnostic(
    out: &mut Writer,
    address: &str,
    severity: &str,
    diag: DiagTexts<'_>,
) -> Result<(), AllocError>
    ensures { Sends result out.old out.new (member_tokens (codes "diagnostic")
        (diagnostic_object address.now severity.now (diag_view diag.entry))) }
{
    out.key("diagnostic")?;
    out.begin_object()?;
    put_text(out, "address", address)?;
    put_text(out, "detail", diag.detail)?;
    put_text(out, "severity", severity)?;
    put_text(out, "summary", diag.summary)?;
    out.end_object()
}
