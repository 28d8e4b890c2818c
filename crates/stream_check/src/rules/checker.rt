//! Checks a stream line by line.

ghost use Rattle.std.specs.Prelude.{◌≡◌, ◌<◌, ◌^◌, ◌↔◌, List, [], false};
ghost use Rattle.std.specs.List.{list_any};
ghost use Rattle.stream_check.specs.Small.{IsSmall};

use crate::messages::line::message_in;
use crate::rules::fault::Fault;
use crate::rules::limits::{MAX_BYTES, MAX_LINES};
use crate::rules::mode::Mode;
use crate::rules::open_steps::OpenSteps;
use crate::rules::piece::piece_of;
use crate::rules::tally::Tally;
use crate::rules::unbegun::Unbegun;
use apply_json::Scratch;
use std::alloc::Global;
use stream_message::take_scratch;

/// The state of a check. It grows only with the number of addresses at which something stands open
/// or a planned create has not begun, and with the longest line.
#[derive(Drop)]
pub struct Checker {
    pub(crate) tally: Tally,
    pub(crate) pending: OpenSteps,
    pub(crate) unbegun: Unbegun,
    // Stored between lines, so that a line needs no memory of its own. It is boxed because reading
    // a line takes it out.
    scratch: Option<Box<Scratch>>,
    ghost small: { IsSmall tally },
}

impl Checker {
    ghost use Rattle.stream_check.specs.Checking.{Continues, HasRead, lines_read};
    ghost use Rattle.stream_check.specs.Lines.{next, passed_of, read_line, read_text};
    ghost use Rattle.stream_check.specs.Message.{Message as message_type, foreign};
    ghost use Rattle.stream_check.specs.Tally.{is_error};

    /// A checker that has read no line.
    pub fn new(alloc: Global) -> Self
        ensures { HasRead result [] }
    {
        Checker {
            tally: Tally::new(),
            pending: OpenSteps::new(alloc),
            unbegun: Unbegun::new(alloc),
            scratch: None,
        }
    }

    /// Checks the next line, without its line feed. In a log, the message is located in the line
    /// first. `Err` with the first fault of the line, or with `Fault::Memory`: the checker is
    /// unchanged then.
    pub fn line(&mut self, alloc: Global, mode: Mode, text: &[u8]) -> Result<(), Fault>
        requires { lines_read self.old < 2 ^ 32 }
        ensures { Continues self.old self.new (λ messages. read_line mode.find messages text.now) result }
    {
        if text.len() > MAX_BYTES {
            return Err(Fault::TooLong);
        }
        match piece_of(mode.find, text) {
            Ok(Some(piece)) => self.text(alloc, mode.find, piece),
            Ok(None) => self.foreign(),
            Err(fault) => Err(fault),
        }
    }

    /// Counts a line of a log that holds no message. The result is always `Ok`.
    fn foreign(&mut self) -> Result<(), Fault>
        requires { lines_read self.old < 2 ^ 32 }
        ensures { Continues self.old self.new (λ messages. next messages foreign) result }
    {
        self.tally = self.tally.with_foreign();
        Ok(())
    }

    /// Checks the text of a message. `Err` as for `line`.
    fn text(&mut self, alloc: Global, find: bool, text: &[u8]) -> Result<(), Fault>
        requires { lines_read self.old < 2 ^ 32 }
        ensures { Continues self.old self.new (λ messages. read_text find messages text.now) result }
    {
        // The message borrows from the scratch while the checker changes.
        let mut scratch = take_scratch(alloc, &mut self.scratch)?;
        let answer = self.text_with(alloc, &mut *scratch, find, text);
        self.scratch = Some(scratch);
        answer
    }

    /// Does what `text` does, with a scratch that is no part of the checker. `Err` as for `line`.
    fn text_with(
        &mut self,
        alloc: Global,
        scratch: &mut Scratch,
        find: bool,
        text: &[u8],
    ) -> Result<(), Fault>
        requires { lines_read self.old < 2 ^ 32 }
        ensures { Continues self.old self.new (λ messages. read_text find messages text.now) result }
    {
        match message_in(alloc, scratch, find, text) {
            Ok(message) => self.message(alloc, message),
            Err(fault) => Err(fault),
        }
    }

    /// How many lines were accepted.
    pub fn count(&self) -> u64
        ensures { result ≡ lines_read self.now }
    {
        self.tally.lines
    }

    /// Whether the greatest number of lines is reached.
    pub fn is_full(&self) -> bool
        ensures { result ≡ false ↔ lines_read self.now < 2 ^ 32 }
    {
        self.tally.lines >= MAX_LINES
    }

    /// Whether a diagnostic with severity `error` was read.
    pub fn has_failed(&self) -> bool
        ensures { (messages : List message_type) → HasRead self.now messages → result ≡ list_any is_error messages }
    {
        self.tally.has_failed
    }

    /// How many lines were ignored, where `find` asks for that.
    pub fn passed(&self, mode: Mode) -> Option<u64>
        ensures { (messages : List message_type) → HasRead self.now messages → result ≡ passed_of mode messages }
    {
        if mode.find {
            Some(self.tally.foreign)
        } else {
            None
        }
    }
}
