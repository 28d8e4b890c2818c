//! The object `diagnostic` of a message.

ghost use Rattle.std.specs.Prelude.{codes};
ghost use Rattle.std.specs.Option.{option_copied};
ghost use Rattle.apply_text_terraform.specs.Objects.{diagnostic_object};
ghost use Rattle.apply_text.specs.AppliedStep.{diag_view};
ghost use Rattle.apply_text.specs.Sending.{Sends, member_tokens};

use crate::objects::text_member::put_text_if;
use apply_text::parts::{DiagTexts, put_text};
use json::Writer;
use std::alloc::AllocError;

/// Writes the member `diagnostic`, without its range and its snippet. `address` is the resource
/// that the diagnostic is about, if any.
pub fn put_diagnostic(
    out: &mut Writer,
    address: Option<&str>,
    severity: &str,
    diag: DiagTexts<'_>,
) -> Result<(), AllocError>
    ensures { Sends result out.old out.new (member_tokens (codes "diagnostic")
        (diagnostic_object (option_copied address.entry) severity.now (diag_view diag.entry))) }
{
    out.key("diagnostic")?;
    out.begin_object()?;
    put_text(out, "severity", severity)?;
    put_text(out, "summary", diag.summary)?;
    put_text(out, "detail", diag.detail)?;
    put_text_if(out, "address", address)?;
    out.end_object()
}
