//! Why no run was selected.

ghost use Rattle.std.specs.Prelude.{◌≡◌};
ghost use Rattle.stream_runs.specs.Selected.{IsNoRun};
ghost use Rattle.stream_runs.specs.declared.fault.RunFault.TheVariants.{Memory};

use std::alloc::AllocError;
use std::fmt;
use stream_lines::{FailedRead, LineFault};

/// A run that is not there: how many runs there are.
#[derive(Clone, Copy, Debug, Drop, PartialEq, Eq)]
pub struct MissingRun {
    /// The number of the run, counted from 1.
    pub number: u64,
    /// How many runs there are.
    pub runs: u64,
}

impl fmt::Display for MissingRun {
    fn fmt<W: fmt::Write>(&self, f: &mut fmt::Formatter<W>) -> fmt::Result {
        write!(f, "there is no run {}: ", self.number)?;
        if self.runs == 1 {
            f.write_str("1 run is there")
        } else {
            write!(f, "{} runs are there", self.runs)
        }
    }
}

/// Why no run was selected.
#[derive(Clone, Copy, Drop, PartialEq, Eq)]
pub enum RunFault {
    /// The run is not there.
    Missing(MissingRun),
    /// The line of that number, counted from 1, has more than 67,108,864 bytes.
    TooLong(u64),
    /// The input has more than 4,294,967,296 lines.
    TooMany,
    /// A read failed.
    Unread(FailedRead),
    /// Memory was refused.
    Memory,
}

impl fmt::Display for RunFault {
    fn fmt<W: fmt::Write>(&self, f: &mut fmt::Formatter<W>) -> fmt::Result {
        match *self {
            RunFault::Missing(missing) => write!(f, "{missing}"),
            RunFault::TooLong(line) => write!(f, "line {line} is longer than 67108864 bytes"),
            RunFault::TooMany => f.write_str("the stream has more than 4294967296 lines"),
            RunFault::Unread(_) => f.write_str("the stream could not be read"),
            RunFault::Memory => f.write_str("out of memory"),
        }
    }
}

impl From<LineFault> for RunFault {
    ghost from_gives = { λ _ fault. IsNoRun fault };

    fn from(given: LineFault) -> RunFault {
        match given {
            LineFault::Unread(failed) => RunFault::Unread(failed),
            LineFault::Memory => RunFault::Memory,
        }
    }
}

impl From<AllocError> for RunFault {
    ghost from_gives = { λ _ fault. fault ≡ Memory };

    fn from(_refused: AllocError) -> RunFault {
        RunFault::Memory
    }
}
