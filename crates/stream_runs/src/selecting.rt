//! Selects a run of an input.

ghost use Rattle.std.specs.Prelude.{◌≡◌, ℕ, IfOk, IfErr, IfSome, OnSome};
ghost use Rattle.std.specs.Io.KnownBytes.{IsAtEnd};
ghost use Rattle.stream_runs.specs.Collected.{Lines, run_of};
ghost use Rattle.stream_runs.specs.Selected.{HasEnded, IsRunOf, IsSelected};

use crate::beginning::begins_run;
use crate::choice::RunChoice;
use crate::collecting::Collected;
use crate::fault::{MissingRun, RunFault};
use apply_json::Scratch;
use std::alloc::Global;
use std::io::BufRead;
use stream_lines::{Line, LineEnd, next_line};

/// The least number of lines that are too many.
const TOO_MANY: u64 = 4_294_967_297;

/// A run of an input.
#[derive(Drop)]
pub struct Run {
    /// The lines of the run, as they stand in the input.
    pub bytes: Vec<u8>,
    /// How many lines of the input stand before the run.
    pub lines_before: u64,
}

/// Reads the input to its end, and returns the chosen run. Each `version` message begins a run;
/// lines before the first one belong to run 1. An input has at least one run.
///
/// Errors:
///
/// - `RunFault::Missing`: the input has fewer runs.
/// - `RunFault::TooLong`: a line has more than 67,108,864 bytes.
/// - `RunFault::TooMany`: the input has more than 4,294,967,296 lines.
/// - `RunFault::Unread`: a read failed.
/// - `RunFault::Memory`: memory was refused.
pub fn select_run<R: BufRead>(
    alloc: Global,
    find: bool,
    choice: RunChoice,
    reader: &mut R,
) -> Result<Run, RunFault>
    ensures selected { IfSome (R.remaining reader.old) (λ bytes. IsSelected find choice bytes result) }
    ensures at_end { HasEnded result → OnSome (R.remaining reader.old) (IsAtEnd (R.remaining reader.new)) }
{
    let mut line = Line::new(alloc);
    let mut scratch = Scratch::new(alloc);
    let mut collected = Collected::new(alloc);
    'lines: for before in 0..TOO_MANY {
        let next = match next_line(reader, &mut line.text) {
            Ok(next) => next,
            Err(fault) => return Err(RunFault::from(fault)),
        };
        match next {
            LineEnd::End => return chosen(choice, collected),
            LineEnd::TooLong => return Err(RunFault::TooLong(before + 1)),
            LineEnd::Line { has_feed } => line.has_feed = has_feed,
        }
        let begins = match begins_run(alloc, &mut scratch, find, &line.text) {
            Ok(begins) => begins,
            Err(_) => return Err(RunFault::Memory),
        };
        match collected.line(choice, begins, &line.text, line.has_feed) {
            Ok(()) => {}
            Err(_) => return Err(RunFault::Memory),
        }
    }
    Err(RunFault::TooMany)
}

/// Returns the run of the lines, all of which were read. `Err` with `RunFault::Missing` where there
/// are fewer runs.
fn chosen(choice: RunChoice, collected: Collected) -> Result<Run, RunFault>
    ensures { IsRunOf choice collected result }
{
    let runs = collected.begun.max(1);
    match choice {
        RunChoice::Number(number) if runs < number => Err(RunFault::Missing(MissingRun {
            number,
            runs,
        })),
        _ => Ok(Run {
            bytes: collected.bytes,
            lines_before: collected.before,
        }),
    }
}
