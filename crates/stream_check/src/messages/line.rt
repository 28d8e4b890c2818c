//! The message of a line.

ghost use Rattle.std.specs.Prelude.{◌≡◌};
ghost use Rattle.stream_check.specs.SlotContents.{kind_of_slots, message_of_slots, planned_of_slots};
ghost use Rattle.stream_check.specs.Lines.{text_message};
ghost use Rattle.stream_check.specs.MessageView.{message_view};
ghost use Rattle.stream_check.specs.Results.{Gives, mapped};

use crate::messages::changes::summary_of;
use crate::messages::diagnostic::diagnostic_of;
use crate::messages::hook::{provision_of, refresh_of, step_of};
use crate::messages::intent::Intent;
use crate::messages::members::{object_at, text_at};
use crate::messages::message::Message;
use crate::messages::path::Path;
use crate::messages::timed_stage::TimedStage;
use crate::rules::fault::Fault;
use apply_json::{JsonFault, Scratch};
use std::alloc::Global;
use stream_message::{Kind, LineSlots, Selection, read_line};

/// The members that the rules read.
pub const SELECTION: Selection = Selection {
    version: false,
    hook: true,
    change: true,
    changes: true,
    diagnostic: true,
    diagnostic_texts: false,
};

/// Returns the message of a text. `scratch` grows to the length of the text. `Err` with the first
/// fault of the text, or with `Fault::Memory`.
pub fn message_in<'a>(
    alloc: Global,
    scratch: &'a mut Scratch,
    find: bool,
    text: &'a [u8],
) -> Result<Message<'a>, Fault>
    ensures { Gives Fault.Memory message_view result (text_message find text.now) }
{
    let mut line = LineSlots::new(SELECTION);
    match read_line(alloc, scratch, text, &mut line) {
        Ok(()) => message_of(&line, find),
        Err(JsonFault::TooLarge) => Err(Fault::TooLong),
        Err(JsonFault::NotJson) => Err(Fault::NotJson),
        Err(JsonFault::Memory) => Err(Fault::Memory),
    }
}

/// Returns the message of the line. In a log, an object without a type is the message of another
/// program.
///
/// `Err` with `Fault::NoType` where the type is missing or no text. `Err` with `Fault::Malformed`
/// where a member of a known type is missing or has another type.
fn message_of<'a>(line: &LineSlots<'a>, find: bool) -> Result<Message<'a>, Fault>
    ensures { mapped message_view result ≡ message_of_slots find line.now }
{
    match line.head.kind() {
        Some(kind) => message_of_kind(line, kind),
        None => if find {
            Ok(Message::Foreign)
        } else {
            Err(Fault::NoType)
        },
    }
}

/// Returns the message of this kind. `Err` with `Fault::Malformed` where a member is missing or has
/// another type.
#[inline(always)]
pub fn message_of_kind<'a>(line: &LineSlots<'a>, kind: Kind) -> Result<Message<'a>, Fault>
    ensures { mapped message_view result ≡ kind_of_slots kind line.now }
{
    match kind {
        Kind::Version => Ok(Message::Version),
        Kind::Apply(stage) => step_of(&line.hook, stage),
        Kind::Refresh(stage) => refresh_of(&line.hook, TimedStage::of(stage, 0)),
        Kind::Provision(stage) => provision_of(&line.hook, stage),
        Kind::Planned => planned_of(line),
        Kind::Summary => summary_of(&line.changes),
        Kind::Diagnostic => diagnostic_of(&line.diagnostic),
        Kind::Outputs => Ok(Message::Outputs),
        Kind::Ephemeral(_) | Kind::Other => Ok(Message::Other),
    }
}

/// Returns the message of a planned change. An address that is no text counts as missing. `Err`
/// where the action is missing or no text.
fn planned_of<'a>(line: &LineSlots<'a>) -> Result<Message<'a>, Fault>
    ensures { mapped message_view result ≡ planned_of_slots line.now }
{
    match object_at(Path::ChangeAction, Path::Change, line.change.is).and(text_at(
        Path::ChangeAction,
        line.change.action,
    )) {
        Ok(word) => Ok(Message::Planned {
            intent: Intent::named(word),
            address: line.change.address(),
        }),
        Err(fault) => Err(fault),
    }
}
