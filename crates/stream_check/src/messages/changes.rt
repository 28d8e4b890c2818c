//! The summaries of operations, from `changes`.

ghost use Rattle.std.specs.Prelude.{◌≡◌};
ghost use Rattle.stream_check.specs.SlotContents.{summary_of_slots, totals_of_slots};
ghost use Rattle.stream_check.specs.MessageView.{message_view};
ghost use Rattle.stream_check.specs.Results.{mapped};

use crate::messages::members::{count_at, object_at, text_at};
use crate::messages::message::Message;
use crate::messages::path::Path;
use crate::messages::totals::Totals;
use crate::rules::fault::Fault;
use stream_message::ChangesSlots;

/// Returns the summary. `Err` where a member is missing or has another type.
pub fn summary_of<'a>(changes: &ChangesSlots<'a>) -> Result<Message<'a>, Fault>
    ensures { mapped message_view result ≡ summary_of_slots changes.now }
{
    match object_at(Path::Operation, Path::Changes, changes.is).and(text_at(
        Path::Operation,
        changes.operation,
    )) {
        Ok(operation) => match totals_of(changes) {
            Ok(totals) => Ok(Message::of_totals(operation, totals)),
            Err(fault) => Err(fault),
        },
        Err(fault) => Err(fault),
    }
}

/// Returns the totals. `Err` where a count is missing or no whole number.
fn totals_of(changes: &ChangesSlots<'_>) -> Result<Totals, Fault>
    ensures { result ≡ totals_of_slots changes.now }
{
    let added = count_at(Path::Added, changes.added)?;
    let changed = count_at(Path::Changed, changes.changed)?;
    let removed = count_at(Path::Removed, changes.removed)?;
    Ok(Totals {
        added,
        changed,
        removed,
    })
}
