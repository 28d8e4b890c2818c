//! Checks the lines of a stream one by one, and remembers the first fault.

ghost use Rattle.std.specs.Prelude.{◌≡◌, ◌<◌, ◌+◌, ◌++◌, ◌∷◌, [], IfOk, List, OnOk, Some, ℕ, length};
ghost use Rattle.stream_check.specs.Judging.{HasJudged, IsFoundAfter, IsVerdict, IsVerdictAfter};
ghost use Rattle.stream_check.specs.Checking.{HasRead};
ghost use Rattle.stream_check.specs.Message.{Message as message_type};
ghost use Rattle.stream_check.specs.declared.rules.mode.Mode.{Mode as mode_type};
ghost use Rattle.stream_lines.specs.Limits.{max_bytes};

use crate::command::findings::finding_words;
use crate::command::texts::whole_text;
use crate::rules::checker::Checker;
use crate::rules::fault::Fault;
use crate::rules::mode::Mode;
use crate::verdict::finding::Finding;
use crate::verdict::whole::Whole;
use std::alloc::{AllocError, Global};
use stream_lines::Line;

/// The verdict on a stream, and its text for people.
#[derive(Drop)]
pub struct Verdict {
    pub answer: Result<Whole, Finding>,
    /// What `check` reports, without `applystream: ` and without a line feed.
    pub text: String,
}

/// The first fault of a stream, and its text for people.
#[derive(Drop)]
pub struct Found {
    pub(crate) finding: Finding,
    pub(crate) text: String,
}

/// Checks the lines of a stream one by one, and remembers the first fault.
#[derive(Drop)]
pub struct Judge {
    pub(crate) alloc: Global,
    pub(crate) mode: Mode,
    pub(crate) checker: Checker,
    pub(crate) found: Option<Found>,
}

/// Why a line was not judged.
#[derive(Clone, Copy, Debug, PartialEq, Eq)]
pub enum Unjudged {
    /// The stream has more than 4,294,967,296 lines.
    TooMany,
    /// Memory was refused.
    Memory,
}

impl From<AllocError> for Unjudged {
    fn from(_refused: AllocError) -> Unjudged {
        Unjudged::Memory
    }
}

impl Judge {
    /// A judge that has read no line.
    pub fn new(alloc: Global, mode: Mode) -> Judge
        ensures { HasJudged mode result [] }
    {
        Judge {
            alloc,
            mode,
            checker: Checker::new(alloc),
            found: None,
        }
    }

    /// Checks the next line, unless a fault was found before. After an `Err` the judge is of no
    /// use.
    pub fn line(&mut self, line: &Line) -> Result<(), Unjudged>
        ensures { OnOk result ((mode : mode_type) → (texts : List (List ℕ)) → HasJudged mode self.old texts
            → HasJudged mode self.new (texts ++ line.now.text.items ∷ [])) }
    {
        if self.found.is_some() {
            return Ok(());
        }
        if self.checker.is_full() {
            return Err(Unjudged::TooMany);
        }
        match self.checker.line(self.alloc, self.mode, &line.text) {
            Ok(()) => Ok(()),
            Err(fault) => self.find_fault(line, fault),
        }
    }

    /// The next line is too long: `line` is a front of it. After an `Err` the judge is of no use.
    pub fn too_long(&mut self, line: &Line) -> Result<(), Unjudged>
        ensures { OnOk result ((mode : mode_type) → (texts : List (List ℕ)) → HasJudged mode self.old texts
            → (text : List ℕ) → max_bytes < length text → HasJudged mode self.new (texts ++ text ∷ [])) }
    {
        if self.found.is_some() {
            return Ok(());
        }
        self.find_fault(line, Fault::TooLong)
    }

    /// Remembers the fault of the next line. `Err` where memory is refused.
    fn find_fault(&mut self, line: &Line, fault: Fault) -> Result<(), Unjudged>
        ensures mode { self.new.mode ≡ self.old.mode }
        ensures found { OnOk result ((messages : List message_type) → HasRead self.old.checker messages
            → IsFoundAfter self.old.mode messages (length messages + 1) fault self.new.found) }
    {
        let number = self.checker.count() + 1;
        self.found = Some(self.found_at(line, number, fault)?);
        Ok(())
    }

    /// Returns the fault of the line of that number. `Err` where memory is refused.
    fn found_at(&self, line: &Line, number: u64, fault: Fault) -> Result<Found, AllocError>
        ensures { IfOk result (λ found. (messages : List message_type) → HasRead self.now.checker messages
            → IsFoundAfter self.now.mode messages number fault (Some found)) }
    {
        if matches!(fault, Fault::Memory) {
            return Err(AllocError);
        }
        let finding = Finding {
            line: number,
            fault,
            passed: self.checker.passed(self.mode),
        };
        let text = finding_words(self.alloc, self.mode, &self.checker, line, &finding)?;
        Ok(Found { finding, text })
    }

    /// Returns the verdict at the end of the stream, whose last line is `line`. `Err` where memory
    /// is refused.
    pub fn verdict(self, line: &Line) -> Result<Verdict, AllocError>
        ensures { IfOk result (λ verdict. (mode : mode_type) → (texts : List (List ℕ)) → HasJudged mode self texts → IsVerdict mode texts verdict) }
    {
        match &self.found {
            Some(_) => self.fault_found(),
            None => self.end(line),
        }
    }

    /// Returns the fault that was found. `Err` where none was.
    fn fault_found(self) -> Result<Verdict, AllocError>
        ensures { IfOk result (λ verdict. (mode : mode_type) → (texts : List (List ℕ)) → HasJudged mode self texts → IsVerdict mode texts verdict) }
    {
        let Judge {
            alloc,
            mode,
            checker,
            found,
        } = self;
        match found {
            Some(Found { finding, text }) => Ok(Verdict {
                answer: Err(finding),
                text,
            }),
            None => Err(AllocError),
        }
    }

    /// Returns the verdict at the end of a stream without a fault before. `Err` where memory is
    /// refused.
    fn end(&self, line: &Line) -> Result<Verdict, AllocError>
        ensures { IfOk result (λ verdict. (messages : List message_type) → HasRead self.now.checker messages
            → IsVerdictAfter self.now.mode messages verdict) }
    {
        match self.checker.end(self.mode) {
            Ok(whole) => Ok(Verdict {
                answer: Ok(whole),
                text: whole_text(self.alloc, &whole)?,
            }),
            Err(fault) => {
                let Found { finding, text } = self.found_at(line, self.checker.count(), fault)?;
                Ok(Verdict {
                    answer: Err(finding),
                    text,
                })
            }
        }
    }
}
