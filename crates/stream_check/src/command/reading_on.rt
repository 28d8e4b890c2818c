//! Reads on after a fault, for what tells which option takes the stream.

ghost use Rattle.std.specs.Prelude.{◌≡◌, ℕ, List, IfOk, IfSome, Some, is_some, true};
ghost use Rattle.stream_lines.specs.Cut.{cut_lines};
ghost use Rattle.stream_check.specs.Faults.{reports_line};
ghost use Rattle.stream_check.specs.Marks.{has_mark, lies_in_log};
ghost use Rattle.stream_check.specs.Reports.{runs_from};
ghost use Rattle.stream_message.specs.Located.{from_mark};

use crate::command::finding_report::FindingReport;
use crate::command::settings::Form;
use crate::rules::fault::Fault;
use std::alloc::{AllocError, Global};
use std::fmt;
use std::io::{BufRead, Write};
use stream_lines::{LineEnd, LineFault, next_line};
use stream_message::from_mark;
use stream_runs::{SeveralRuns, count_runs};
use stream_tool::report;

/// Tells that messages stand in lines of a log.
#[derive(Clone, Copy)]
struct InLog;

impl fmt::Display for InLog {
    fn fmt<W: fmt::Write>(&self, f: &mut fmt::Formatter<W>) -> fmt::Result {
        f.write_str("messages stand in lines of a log here: --find takes them")
    }
}

/// Returns how many runs the input has, where an object reports that a second one begins. The rest
/// of the input is read then. `None` for other reports, and where a read fails. `Err` where memory
/// is refused.
pub fn runs_there<R: BufRead>(
    alloc: Global,
    find: bool,
    form: Form,
    fault: Fault,
    reader: &mut R,
) -> Result<Option<u64>, AllocError>
    ensures { (bytes : List ℕ) → (reports_line fault ≡ true → R.remaining reader.old ≡ Some bytes)
        → IfOk result (λ runs. IfSome runs (λ n. n ≡ runs_from find bytes)) }
{
    match form {
        Form::Text => Ok(None),
        Form::Json => match fault {
            Fault::VersionAgain(_) => counted_runs(alloc, find, reader),
            _ => Ok(None),
        },
    }
}

/// Returns how many runs the input has, the second of which has begun. `None` where a read fails.
/// `Err` where memory is refused.
fn counted_runs<R: BufRead>(
    alloc: Global,
    find: bool,
    reader: &mut R,
) -> Result<Option<u64>, AllocError>
    ensures { (bytes : List ℕ) → R.remaining reader.old ≡ Some bytes → IfOk result (λ runs. IfSome runs (λ n. n ≡ runs_from find bytes)) }
{
    match count_runs(alloc, find, reader) {
        Ok(runs) => Ok(Some(runs.saturating_add(2))),
        Err(LineFault::Memory) => Err(AllocError),
        Err(LineFault::Unread(_)) => Ok(None),
    }
}

/// Reports which option takes the stream, if one does: `--run` where a second run begins, `--find`
/// where messages stand in the lines of a log. Nothing is reported where a read fails or memory is
/// refused.
pub fn suggest<R: BufRead, E: Write>(
    alloc: Global,
    find: bool,
    finding: &FindingReport<'_>,
    reader: &mut R,
    faults: &mut E,
) {
    match finding.finding.fault {
        Fault::VersionAgain(_) => if let Ok(runs) = count_runs(alloc, find, reader) {
            report(
                faults,
                SeveralRuns {
                    runs: runs.saturating_add(2),
                },
            );
        },
        Fault::NotJson | Fault::NoType => {
            let is_judged = find || finding.is_cut_off;
            if !is_judged && lies_in_log(alloc, finding.text, reader) {
                report(faults, InLog);
            }
        }
        _ => {}
    }
}

/// Whether messages stand in lines of a log: within this line, which none begins, or in a later
/// line. Later lines are searched, not parsed. `false` also where a read fails or memory is refused.
fn lies_in_log<R: BufRead>(alloc: Global, line: &[u8], reader: &mut R) -> bool
    ensures { (bytes : List ℕ) → R.remaining reader.old ≡ Some bytes → result ≡ true → lies_in_log line.now (cut_lines bytes) ≡ true }
{
    match from_mark(line) {
        Some(rest) => rest.len() < line.len(),
        None => match has_mark(alloc, reader) {
            Ok(found) => found,
            Err(_) => false,
        },
    }
}

/// Whether the start of a message stands in one of the lines that are left. A line of more than
/// 67,108,864 bytes ends the search.
///
/// `Err` with `LineFault::Unread` where a read fails, and with `LineFault::Memory` where memory is
/// refused.
fn has_mark<R: BufRead>(alloc: Global, reader: &mut R) -> Result<bool, LineFault>
    ensures { IfSome (R.remaining reader.old) (λ bytes. IfOk result (λ found. found ≡ has_mark (cut_lines bytes))) }
{
    let mut text = Vec::new(alloc);
    'lines: for _ in 0..u64::MAX {
        let next = match next_line(reader, &mut text) {
            Ok(next) => next,
            Err(fault) => return Err(fault),
        };
        match next {
            LineEnd::End => return Ok(false),
            LineEnd::TooLong => return Ok(false),
            LineEnd::Line { .. } => {}
        }
        if is_marked(&text) {
            return Ok(true);
        }
    }
    Err(LineFault::Memory)
}

/// Whether the start of a message stands in the line.
fn is_marked(line: &[u8]) -> bool
    ensures { result ≡ is_some (from_mark line.now) }
{
    from_mark(line).is_some()
}
