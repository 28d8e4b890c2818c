//! The object `changes` of the summary.

ghost use Rattle.std.specs.Prelude.{codes};
ghost use Rattle.apply_text.specs.Objects.{changes_object};
ghost use Rattle.apply_text.specs.Sending.{Sends, member_tokens};

use crate::objects::member::{put_number, put_text};
use crate::operation::Operation;
use apply_events::Counts;
use json::Writer;
use std::alloc::AllocError;

/// Writes the member `changes`: how many additions, changes and removals were completed.
pub fn put_changes(
    out: &mut Writer,
    operation: Operation,
    counts: &Counts,
) -> Result<(), AllocError>
    ensures { Sends result out.old out.new
        (member_tokens (codes "changes") (changes_object operation counts.now)) }
{
    out.key("changes")?;
    out.begin_object()?;
    put_number(out, "add", counts.added)?;
    put_number(out, "change", counts.changed)?;
    put_text(out, "operation", operation.word())?;
    put_number(out, "remove", counts.removed)?;
    out.end_object()
}
