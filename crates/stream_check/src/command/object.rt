//! What a faulty line is about.

ghost use Rattle.std.specs.Prelude.{◌≡◌, IfOk, option_map};
ghost use Rattle.std.specs.Option.{option_copied};
ghost use Rattle.stream_check.specs.About.{about_line, message_in, object_view};
ghost use Rattle.stream_check.specs.SlotContents.{about_of_slots};

use crate::messages::action::Action;
use crate::messages::line::{SELECTION, message_of_kind};
use crate::messages::message::Message;
use crate::rules::mode::Mode;
use apply_json::{JsonFault, Scratch};
use std::alloc::{AllocError, Global};
use stream_message::{LineSlots, message_text, read_line};

/// The subject of a message about a step or a provisioner.
#[derive(Clone, Copy)]
pub enum Object<'a> {
    Step {
        action: Action,
        address: &'a str,
    },
    /// A provisioner, with its name where that is a text.
    Provisioner {
        name: Option<&'a str>,
        address: &'a str,
    },
}

impl<'a> Object<'a> {
    /// Returns what the message of the line is about. Only messages about steps and provisioners
    /// have a subject.
    fn of(line: &LineSlots<'a>) -> Option<Object<'a>>
        ensures { option_map object_view result ≡ about_of_slots line.now }
    {
        match message_of_kind(line, line.head.kind()?) {
            Ok(
                Message::Step {
                    address,
                    action,
                    ..
                },
            ) => Some(Object::Step { action, address }),
            Ok(Message::Provision { address, .. }) => Some(Object::Provisioner {
                name: line.hook.provisioner(),
                address,
            }),
            _ => None,
        }
    }

    /// The address of the resource.
    pub fn address(self) -> &'a str {
        match self {
            Object::Step { address, .. } | Object::Provisioner { address, .. } => address,
        }
    }

    /// Returns the action, or the name of the provisioner, or `provisioner` where it has no name.
    pub fn word(self) -> &'a str {
        match self {
            Object::Step { action, .. } => action.word(),
            Object::Provisioner { name, .. } => name.unwrap_or("provisioner"),
        }
    }
}

/// Returns what the message of the line is about. In a log, the message is located in the line
/// first. `Err` where memory was refused.
pub fn object_in<'a>(
    alloc: Global,
    scratch: &'a mut Scratch,
    mode: Mode,
    text: &'a [u8],
) -> Result<Option<Object<'a>>, AllocError>
    ensures { IfOk result (λ object. option_map object_view object ≡ about_line mode.find text.now) }
{
    let Some(piece) = message_in(mode, text) else {
        return Ok(None);
    };
    let mut line = LineSlots::new(SELECTION);
    match read_line(alloc, scratch, piece, &mut line) {
        Ok(()) => Ok(Object::of(&line)),
        Err(JsonFault::Memory) => Err(AllocError),
        Err(_) => Ok(None),
    }
}

/// Returns the text of the line's message.
fn message_in(mode: Mode, text: &[u8]) -> Option<&[u8]>
    ensures { option_copied result ≡ message_in mode.find text.now }
{
    if mode.find {
        message_text(text)
    } else {
        Some(text)
    }
}
