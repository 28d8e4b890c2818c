//! Reads a whole stream.

ghost use Rattle.std.specs.Prelude.{◌≡◌, ℕ, List, Err, IfErr, IfOk, IfSome, OnOk, Some};
ghost use Rattle.stream_lines.specs.Cut.{cut_lines};
ghost use Rattle.stream_record_steps.specs.Steps.{planned_steps};
ghost use Rattle.stream_record_stream.specs.Answers.{IsFault, IsReadOf};
ghost use Rattle.stream_record_stream.specs.Reading.{at_end, nothing_known, read_of, version_again};

use crate::apply_stream::ApplyStream;
use crate::so_far::SoFar;
use crate::stream_fault::StreamFault;
use crate::unread_line::UnreadLine;
use apply_model::Plan;
use std::alloc::Global;
use std::io::BufRead;
use stream_lines::{LineEnd, next_line};
use stream_runs::count_runs;

/// The least number of lines that are too many.
const TOO_MANY: u64 = 4_294_967_297;

/// Reads the stream of an apply of the plan, line by line. Each line ends at a line feed; the last
/// one may have none. The first line has the number `lines_before + 1`. With `find` the lines are
/// those of a log, and the messages in them are read. Memory holds one line and what is kept.
///
/// Reading stops at the first line that causes an error. After a second version the rest is read
/// too, to count the runs. `stream_lines::drain` reads what is left.
///
/// - `StreamFault::VersionAgain`: the stream has a second `version`.
/// - `StreamFault::NoMessage`: no line is a message.
/// - `StreamFault::NoStepOfPlan`: steps begin, and none of them is of the plan.
/// - `StreamFault::TooLong`: a line has more than 67,108,864 bytes.
/// - `StreamFault::TooMany`: there are more than 4,294,967,296 lines, with the `lines_before`.
/// - `StreamFault::Unread`: a read failed.
/// - `StreamFault::Memory`: memory was refused.
pub fn read_apply<'p, R: BufRead>(
    alloc: Global,
    plan: &'p Plan,
    find: bool,
    lines_before: u64,
    reader: &mut R,
) -> Result<ApplyStream<'p>, StreamFault>
    ensures read { IfSome (R.remaining reader.old) (λ bytes. IsReadOf plan.now find lines_before bytes result) }
    ensures planned { IfOk result (λ stream. stream.begun.planned ≡ planned_steps plan.now.changes) }
{
    let mut so_far = SoFar::new(alloc, plan)?;
    let mut line = Vec::new(alloc);
    match take_lines(
        alloc,
        plan,
        find,
        lines_before,
        reader,
        &mut line,
        &mut so_far,
    ) {
        Ok(()) => so_far.end(find),
        Err(fault) => Err(fault),
    }
}

/// Reads all lines, each in the buffer `line`. The caller owns the buffer and what is known, so that
/// no exit from the loop has to drop them.
fn take_lines<'p, R: BufRead>(
    alloc: Global,
    plan: &'p Plan,
    find: bool,
    lines_before: u64,
    reader: &mut R,
    line: &mut Vec<u8>,
    so_far: &mut SoFar<'p>,
) -> Result<(), StreamFault>
    requires { so_far.old ≡ nothing_known plan.now }
    ensures planned { OnOk result (so_far.new.stream.begun.planned ≡ planned_steps plan.now.changes) }
    ensures read { OnOk result (IfSome (R.remaining reader.old) (λ bytes. read_of plan.now find lines_before (cut_lines bytes) ≡ at_end find so_far.new)) }
    ensures fault { IfErr result (λ fault. IfSome (R.remaining reader.old) (λ bytes. IsReadOf plan.now find lines_before bytes (Err fault))) }
{
    'lines: for before in lines_before..TOO_MANY {
        match next_line(reader, line)? {
            LineEnd::End => return Ok(()),
            LineEnd::TooLong => return Err(StreamFault::TooLong(before + 1)),
            LineEnd::Line { has_feed: _ } => {}
        }
        match so_far.line(alloc, plan, find, before + 1, line) {
            Ok(()) => {}
            Err(UnreadLine::VersionAgain { first }) => {
                return Err(version_again(alloc, find, before + 1, first, reader));
            }
            Err(UnreadLine::Memory) => return Err(StreamFault::Memory),
        }
    }
    Err(StreamFault::TooMany)
}

/// The fault of a line that repeats the version of the line `first`. Reads the rest of the input, to
/// count the runs. It is `Unread` or `Memory` where that fails.
fn version_again<R: BufRead>(
    alloc: Global,
    find: bool,
    line: u64,
    first: u64,
    reader: &mut R,
) -> StreamFault
    ensures { IfSome (R.remaining reader.old) (λ bytes. IsFault (version_again find line first (cut_lines bytes)) result) }
{
    match count_runs(alloc, find, reader) {
        Ok(later) => StreamFault::VersionAgain {
            line,
            first,
            runs: later.saturating_add(2),
        },
        Err(fault) => StreamFault::from(fault),
    }
}
