//! The lines of a planning and of a plan. Every `Err` means that memory was refused.

ghost use Rattle.std.specs.Prelude.{◌≡◌, ◌≤◌, ◌+◌, ◌++◌, OnErr, OnOk};
ghost use Rattle.apply_text.specs.Start.{latest_clock};
ghost use Rattle.apply_text_terraform.specs.Lines.{message_line};
ghost use Rattle.apply_text_planning.specs.Lines.{command_text};
ghost use Rattle.apply_text_planning.specs.PlanningMessage.{message_of};

use crate::messages::put_message;
use crate::planning_message::PlanningMessage;
use crate::words::command_word;
use apply_model::{Change, ChangeDetails};
use apply_text::Start;
use apply_text_terraform::TerraformBuffer;
use apply_text_terraform::parts::UtcTimestamp;
use std::alloc::AllocError;

/// Appends the line of a message. Its timestamp is `clock` seconds after `start`. Overwrites
/// `scratch`.
///
/// After an `Err` the lines are unchanged.
pub fn push_message(
    lines: &mut TerraformBuffer,
    scratch: &mut String,
    start: Start,
    clock: u64,
    message: PlanningMessage<'_>,
) -> Result<(), AllocError>
    requires in_time { clock ≤ latest_clock }
    ensures ok { OnOk result
        (lines.new ≡ lines.old ++ message_line (start + clock) (message_of message.entry)) }
    ensures err { OnErr result (lines.new ≡ lines.old) }
{
    let timestamp = UtcTimestamp::new(start, clock);
    let mut out = lines.begin_line();
    let written = put_message(&mut out, scratch, &timestamp, message);
    lines.end_line(out, written)
}

/// Appends the line of a planned change. Its timestamp is `clock` seconds after `start`. A change
/// has no line when nothing is to be done, and its object is neither moved nor imported. Overwrites
/// `scratch`.
///
/// After an `Err` the lines are unchanged.
pub fn push_planned(
    lines: &mut TerraformBuffer,
    scratch: &mut String,
    start: Start,
    clock: u64,
    change: &Change,
    details: &ChangeDetails,
) -> Result<(), AllocError>
    requires in_time { clock ≤ latest_clock }
    ensures ok { OnOk result (lines.new ≡ lines.old ++ command_text (start + clock) change.now details.now) }
    ensures err { OnErr result (lines.new ≡ lines.old) }
{
    match command_word(change.steps(), details) {
        Some(word) => {
            let message = PlanningMessage::Planned {
                change,
                word,
                details,
            };
            push_message(lines, scratch, start, clock, message)
        }
        None => Ok(()),
    }
}
