//! Messages about steps and provisioners, from `hook`.

ghost use Rattle.std.specs.Prelude.{◌≡◌};
ghost use Rattle.stream_check.specs.SlotContents.{address_of_slots, provision_of_slots, refresh_of_slots, start_of_slots, step_of_slots, subject_of_slots, timed_of_slots};
ghost use Rattle.stream_check.specs.Message.{timed_stage_of};
ghost use Rattle.stream_check.specs.MessageView.{message_view};
ghost use Rattle.stream_check.specs.Results.{mapped};

use crate::messages::action::Action;
use crate::messages::members::{count_at, inner_text_at, object_at, text_at};
use crate::messages::message::{Message, Subject};
use crate::messages::path::Path;
use crate::messages::timed_stage::TimedStage;
use crate::rules::fault::Fault;
use stream_message::{HookSlots, Stage};

/// Returns the message of a stage of a step. `Err` where a member is missing or has another type.
#[inline(always)]
pub fn step_of<'a>(hook: &HookSlots<'a>, stage: Stage) -> Result<Message<'a>, Fault>
    ensures { mapped message_view result ≡ step_of_slots stage hook.now }
{
    match stage {
        Stage::Start => start_of(hook),
        Stage::Progress | Stage::Complete | Stage::Errored => timed_of(hook, stage),
    }
}

/// Returns the message of a start. `Err` where a member is missing or has another type.
fn start_of<'a>(hook: &HookSlots<'a>) -> Result<Message<'a>, Fault>
    ensures { mapped message_view result ≡ start_of_slots hook.now }
{
    match object_at(Path::Address, Path::Hook, hook.is).and(subject_of(hook)) {
        Ok(subject) => Ok(Message::of_step(subject, TimedStage::Start)),
        Err(fault) => Err(fault),
    }
}

/// Returns the message of a progress or an end, with its seconds. `Err` where a member is missing
/// or has another type.
fn timed_of<'a>(hook: &HookSlots<'a>, stage: Stage) -> Result<Message<'a>, Fault>
    ensures { mapped message_view result ≡ timed_of_slots (timed_stage_of stage) hook.now }
{
    match object_at(Path::Address, Path::Hook, hook.is).and(subject_of(hook)) {
        Ok(subject) => match count_at(Path::Seconds, hook.seconds) {
            Ok(seconds) => Ok(Message::of_step(subject, TimedStage::of(stage, seconds))),
            Err(fault) => Err(fault),
        },
        Err(fault) => Err(fault),
    }
}

/// Returns the message about a provisioner. `Err` where its address is missing or no text.
pub fn provision_of<'a>(hook: &HookSlots<'a>, stage: Stage) -> Result<Message<'a>, Fault>
    ensures { mapped message_view result ≡ provision_of_slots stage hook.now }
{
    match address_of(hook) {
        Ok(address) => Ok(Message::Provision { address, stage }),
        Err(fault) => Err(fault),
    }
}

/// Returns the message about a refresh. `Err` where its address is missing or no text.
pub fn refresh_of<'a>(hook: &HookSlots<'a>, stage: TimedStage) -> Result<Message<'a>, Fault>
    ensures { mapped message_view result ≡ refresh_of_slots stage hook.now }
{
    match address_of(hook) {
        Ok(address) => Ok(Message::Step {
            address,
            action: Action::Refresh,
            stage,
        }),
        Err(fault) => Err(fault),
    }
}

/// Returns the address and the action word. `Err` where one of them is missing or no text.
#[inline(always)]
fn subject_of<'a>(hook: &HookSlots<'a>) -> Result<Subject<'a>, Fault>
    ensures { mapped (λ s. (s.address.now, s.word.now)) result ≡ subject_of_slots hook.now }
{
    match inner_text_at(Path::Address, Path::Resource, hook.resource) {
        Ok(address) => match text_at(Path::Action, hook.action) {
            Ok(word) => Ok(Subject { address, word }),
            Err(fault) => Err(fault),
        },
        Err(fault) => Err(fault),
    }
}

/// Returns the address. `Err` where it is missing or no text.
fn address_of<'a>(hook: &HookSlots<'a>) -> Result<&'a str, Fault>
    ensures { mapped (λ address. address.now) result ≡ address_of_slots hook.now }
{
    object_at(Path::Address, Path::Hook, hook.is).and(inner_text_at(
        Path::Address,
        Path::Resource,
        hook.resource,
    ))
}
