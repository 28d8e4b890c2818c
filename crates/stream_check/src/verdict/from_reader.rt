//! Checks the stream of a reader.

ghost use Rattle.std.specs.Prelude.{◌≡◌, ◌+◌, ℕ, List, [], length, Err, IfErr, IfSome, OnOk, OnSome};
ghost use Rattle.std.specs.Io.KnownBytes.{IsAtEnd};
ghost use Rattle.stream_lines.specs.Cut.{cut_lines};
ghost use Rattle.stream_check.specs.Lines.{at_line, end_of, verdict_of};
ghost use Rattle.stream_check.specs.Checking.{HasRead};
ghost use Rattle.stream_check.specs.Judged.{Stops};
ghost use Rattle.stream_check.specs.Message.{Message};
ghost use Rattle.stream_check.specs.Reading.{IsAnswer, IsFaultAt};
ghost use Rattle.stream_check.specs.declared.rules.fault.Fault.{Fault as fault_type};

use crate::rules::checker::Checker;
use crate::rules::fault::Fault;
use crate::rules::mode::Mode;
use crate::verdict::finding::Finding;
use crate::verdict::read_fault::ReadFault;
use crate::verdict::whole::Whole;
use std::alloc::Global;
use std::io::BufRead;
use stream_lines::{Line, LineEnd, next_line};

/// Checks the stream of the reader, line by line. A line feed ends each line; the last line may
/// have none. Reading stops at the first fault; `drain` reads the rest.
///
/// Errors:
///
/// - `ReadFault::Found`: the stream is not whole.
/// - `ReadFault::TooMany`: the stream has more than 4,294,967,296 lines.
/// - `ReadFault::Unread`: a read failed.
/// - `ReadFault::Memory`: memory was refused.
pub fn check<R: BufRead>(alloc: Global, mode: Mode, reader: &mut R) -> Result<Whole, ReadFault>
    ensures { IfSome (R.remaining reader.old) (λ bytes. IsAnswer mode (cut_lines bytes) result) }
{
    let mut checker = Checker::new(alloc);
    let mut line = Line::new(alloc);
    check_with(alloc, mode, &mut checker, reader, &mut line)
}

/// Does what `check` does, with a checker that has read no line. Afterwards the checker has read
/// the lines before the fault, and `line` holds the line at which the check ended.
///
/// `Err` as for `check`.
pub fn check_with<R: BufRead>(
    alloc: Global,
    mode: Mode,
    checker: &mut Checker,
    reader: &mut R,
    line: &mut Line,
) -> Result<Whole, ReadFault>
    requires { HasRead checker.old [] }
    ensures answer { IfSome (R.remaining reader.old) (λ bytes. IsAnswer mode (cut_lines bytes) result) }
    ensures at_end { OnOk result (OnSome (R.remaining reader.old) (IsAtEnd (R.remaining reader.new))) }
    ensures stops { Stops mode (R.remaining reader.old) checker.new line.new.text.items line.new.has_feed (R.remaining reader.new) result }
{
    'lines: loop {
        let next = match next_line(reader, &mut line.text) {
            Ok(next) => next,
            Err(fault) => return Err(ReadFault::from(fault)),
        };
        match next {
            LineEnd::End => return ended(mode, checker),
            LineEnd::TooLong => return Err(fault_at_next_line(mode, checker, Fault::TooLong)),
            LineEnd::Line { has_feed } => line.has_feed = has_feed,
        }
        if checker.is_full() {
            return Err(ReadFault::TooMany);
        }
        match checker.line(alloc, mode, &line.text) {
            Ok(()) => {}
            Err(fault) => return Err(fault_at_next_line(mode, checker, fault)),
        }
    }
}

/// Returns the verdict at the end of the stream. `Err` with the fault of the end.
fn ended(mode: Mode, checker: &Checker) -> Result<Whole, ReadFault>
    ensures answer { (messages : List Message) (texts : List (List ℕ)) → HasRead checker.now messages
        → verdict_of mode texts ≡ at_line mode messages (length messages) (end_of mode messages) → IsAnswer mode texts result }
    ensures fault { IfErr result (λ answer. (messages : List Message) → HasRead checker.now messages
        → (fault : fault_type) × (end_of mode messages ≡ Err fault) × IsFaultAt mode messages (length messages) fault answer) }
{
    match checker.end(mode) {
        Ok(whole) => Ok(whole),
        Err(fault) => Err(fault_at_line(mode, checker, checker.count(), fault)),
    }
}

/// The fault of the line after the accepted ones. `Fault::Memory` is no finding.
fn fault_at_next_line(mode: Mode, checker: &Checker, fault: Fault) -> ReadFault
    ensures { (messages : List Message) → HasRead checker.now messages → IsFaultAt mode messages (length messages + 1) fault result }
{
    fault_at_line(mode, checker, checker.count() + 1, fault)
}

/// The fault of that line. `Fault::Memory` is no finding.
fn fault_at_line(mode: Mode, checker: &Checker, line: u64, fault: Fault) -> ReadFault
    ensures { (messages : List Message) → HasRead checker.now messages → IsFaultAt mode messages line fault result }
{
    match fault {
        Fault::Memory => ReadFault::Memory,
        _ => ReadFault::Found(Finding {
            line,
            fault,
            passed: checker.passed(mode),
        }),
    }
}
