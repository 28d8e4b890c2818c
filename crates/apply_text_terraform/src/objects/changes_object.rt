//! The object `changes` of the summary.

ghost use Rattle.std.specs.Prelude.{codes};
ghost use Rattle.apply_text_terraform.specs.Objects.{changes_object};
ghost use Rattle.apply_text.specs.Sending.{Sends, member_tokens};

use apply_events::Counts;
use apply_text::Operation;
use apply_text::parts::{put_number, put_text};
use json::Writer;
use std::alloc::AllocError;

/// Writes the member `changes`: the counts of completed additions, changes and removals, and of
/// imports.
pub fn put_changes(
    out: &mut Writer,
    operation: Operation,
    counts: &Counts,
    imported: u64,
) -> Result<(), AllocError>
    ensures { Sends result out.old out.new
        (member_tokens (codes "changes") (changes_object operation counts.now imported)) }
{
    out.key("changes")?;
    out.begin_object()?;
    put_number(out, "add", counts.added)?;
    put_number(out, "change", counts.changed)?;
    put_number(out, "import", imported)?;
    put_number(out, "remove", counts.removed)?;
    put_text(out, "operation", operation.word())?;
    out.end_object()
}
