//! What is known of a stream after some of its lines.

ghost use Rattle.std.specs.Prelude.{◌≡◌, IfOk};

use crate::apply_stream::ApplyStream;
use crate::stream_fault::StreamFault;
use crate::unread_line::UnreadLine;
use apply_json::Scratch;
use apply_model::Plan;
use std::alloc::{AllocError, Global};
use std::marker::Model;
use stream_message::from_mark;
use stream_record_lines::{Event, StatedLine, StatedMessage, read_stated_line};

/// What is known of a stream after some of its lines.
#[derive(Drop)]
pub struct SoFar<'p> {
    stream: ApplyStream<'p>,
    /// The line of the version.
    version: Option<u64>,
    /// Whether a line is a message.
    has_message: bool,
    /// Whether the start of a message stands in a line.
    has_mark: bool,
    // Stored between lines, so that a line needs no memory of its own.
    scratch: Scratch,
}

impl<'p> Model for SoFar<'p> {
    ghost use Rattle.stream_record_stream.specs.Reading.{Known};

    ghost Value = { Known };

    ghost view = { λ so_far. record {
      stream = so_far.stream;
      version = so_far.version;
      has_message = so_far.has_message;
      has_mark = so_far.has_mark;
    } };
}

impl<'p> SoFar<'p> {
    ghost use Rattle.stream_record_stream.specs.Reading.{at_end, nothing_known, with_line, with_mark, with_stated};
    ghost use Rattle.stream_record_lines.specs.declared.stated_line.StatedLine.TheVariants.{Message};
    ghost use Rattle.stream_record_stream.specs.Answers.{IsTaken};

    /// No line was read. `Err` where memory is refused.
    pub fn new(alloc: Global, plan: &'p Plan) -> Result<SoFar<'p>, AllocError>
        ensures { IfOk result (λ so_far. so_far ≡ nothing_known plan.now) }
    {
        Ok(SoFar {
            stream: ApplyStream::new(alloc, plan)?,
            version: None,
            has_message: false,
            has_mark: false,
            scratch: Scratch::new(alloc),
        })
    }

    /// Reads the next line, which has this number, without its line feed.
    ///
    /// `UnreadLine::VersionAgain` where it is a second version, and `UnreadLine::Memory` where memory
    /// is refused. After an `Err` the value is of no use.
    pub fn line(
        &mut self,
        alloc: Global,
        plan: &'p Plan,
        find: bool,
        number: u64,
        text: &[u8],
    ) -> Result<(), UnreadLine>
        ensures { IsTaken (with_line plan.now find number text.now self.old) self.new result }
    {
        self.mark(text);
        match read_stated_line(alloc, &mut self.scratch, find, text)? {
            StatedLine::Foreign => Ok(()),
            StatedLine::NoMessage => {
                self.stream.count_no_message(number);
                Ok(())
            }
            StatedLine::Message(message) => self.message(alloc, plan, number, message),
        }
    }

    /// Notes whether the start of a message stands in the line.
    fn mark(&mut self, text: &[u8])
        ensures { self.new ≡ with_mark text.now self.old }
    {
        if !self.has_mark {
            self.has_mark = from_mark(text).is_some();
        }
    }

    /// Takes the message of the line with this number. The errors are those of `line`.
    fn message(
        &mut self,
        alloc: Global,
        plan: &'p Plan,
        number: u64,
        message: StatedMessage,
    ) -> Result<(), UnreadLine>
        ensures { IsTaken (with_stated plan.now number (Message message) self.old) self.new result }
    {
        if let Event::Version { .. } = &message.event {
            if let Some(first) = self.version {
                return Err(UnreadLine::VersionAgain { first });
            }
            self.version = Some(number);
        }
        self.has_message = true;
        self.stream.message(alloc, plan, number, message)?;
        Ok(())
    }

    /// Returns what the stream states, all of whose lines were read.
    ///
    /// `StreamFault::NoMessage` where no line is a message. `StreamFault::NoStepOfPlan` where steps
    /// begin, and none of them is of the plan.
    pub fn end(self, find: bool) -> Result<ApplyStream<'p>, StreamFault>
        ensures { result ≡ at_end find self.entry }
    {
        if !self.has_message {
            return Err(StreamFault::NoMessage {
                is_log: self.has_mark && !find,
            });
        }
        if self.stream.is_of_another_plan() {
            return Err(StreamFault::NoStepOfPlan);
        }
        Ok(self.stream)
    }
}
