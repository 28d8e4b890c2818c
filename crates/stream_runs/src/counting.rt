//! Counts the runs in the rest of an input.

ghost use Rattle.std.specs.Prelude.{◌≡◌, ◌<◌, ◌+◌, ◌-◌, ◌^◌, IfOk, IfSome, if◌then◌else◌};
ghost use Rattle.stream_lines.specs.Cut.{cut_lines};
ghost use Rattle.stream_runs.specs.Counted.{runs_in};

use crate::beginning::begins_run;
use apply_json::Scratch;
use std::alloc::Global;
use std::fmt;
use std::io::BufRead;
use stream_lines::{LineEnd, LineFault, next_line};

/// Reads on, and returns how many runs begin in the lines that are left. A line of more than
/// 67,108,864 bytes ends the count. Memory holds one line.
///
/// `Err` with `LineFault::Unread` where a read fails, and with `LineFault::Memory` where memory is
/// refused.
pub fn count_runs<R: BufRead>(alloc: Global, find: bool, reader: &mut R) -> Result<u64, LineFault>
    ensures { IfSome (R.remaining reader.old) (λ bytes. IfOk result (λ runs. runs ≡ runs_in find (cut_lines bytes))) }
{
    let mut text = Vec::new(alloc);
    let mut scratch = Scratch::new(alloc);
    let mut runs = 0;
    'lines: for _ in 0..u64::MAX {
        let next = match next_line(reader, &mut text) {
            Ok(next) => next,
            Err(fault) => return Err(fault),
        };
        match next {
            LineEnd::End => return Ok(runs),
            LineEnd::TooLong => return Ok(runs),
            LineEnd::Line { .. } => {}
        }
        match begins_run(alloc, &mut scratch, find, &text) {
            Ok(begins) => runs = with_run(runs, begins),
            Err(_) => return Err(LineFault::Memory),
        }
    }
    Err(LineFault::Memory)
}

/// The number of runs after a line with which one begins or not.
fn with_run(runs: u64, begins: bool) -> u64
    requires { runs < 2 ^ 64 - 1 }
    ensures { result ≡ (if begins then runs + 1 else runs) }
{
    if begins { runs + 1 } else { runs }
}

/// Tells that an input has several runs.
#[derive(Clone, Copy, Debug, PartialEq, Eq)]
pub struct SeveralRuns {
    pub runs: u64,
}

impl fmt::Display for SeveralRuns {
    fn fmt<W: fmt::Write>(&self, f: &mut fmt::Formatter<W>) -> fmt::Result {
        let runs = self.runs;
        write!(
            f,
            "{runs} runs are there: --run 1 to --run {runs}, or --run last, takes one"
        )
    }
}
