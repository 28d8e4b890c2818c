//! Why a stream was not read.

ghost use Rattle.std.specs.Prelude.{◌≡◌};
ghost use Rattle.stream_record_stream.specs.declared.stream_fault.StreamFault.TheVariants.{Memory};

use std::alloc::AllocError;
use std::fmt;
use stream_lines::{FailedRead, LineFault};

/// Why the stream of an apply was not read.
#[derive(Clone, Copy, Debug, Drop, PartialEq, Eq)]
pub enum StreamFault {
    /// A second `version`: the input has several runs.
    VersionAgain {
        /// The line of the second version.
        line: u64,
        /// The line of the first version.
        first: u64,
        /// How many runs the input has.
        runs: u64,
    },
    /// No line is a message.
    NoMessage {
        /// Whether messages stand in lines of a log, and were not sought there.
        is_log: bool,
    },
    /// Steps begin in the stream, and none of them is of the plan.
    NoStepOfPlan,
    /// The line of that number has more than 67,108,864 bytes.
    TooLong(u64),
    /// The input has more than 4,294,967,296 lines.
    TooMany,
    /// A read failed.
    Unread(FailedRead),
    /// Memory was refused.
    Memory,
}

impl fmt::Display for StreamFault {
    fn fmt<W: fmt::Write>(&self, f: &mut fmt::Formatter<W>) -> fmt::Result {
        match *self {
            StreamFault::VersionAgain { line, first, .. } => {
                write!(f, "line {line} repeats the version of line {first}")
            }
            StreamFault::NoMessage { is_log: false } => {
                f.write_str("there is no message in the stream")
            }
            StreamFault::NoMessage { is_log: true } => {
                f.write_str("there is no message in the stream: --find finds them in a log")
            }
            StreamFault::NoStepOfPlan => { f.write_str("no step of the stream is one of the plan") }
            StreamFault::TooLong(line) => write!(f, "line {line} is longer than 67108864 bytes"),
            StreamFault::TooMany => f.write_str("the stream has more than 4294967296 lines"),
            StreamFault::Unread(_) => f.write_str("the stream could not be read"),
            StreamFault::Memory => f.write_str("out of memory"),
        }
    }
}

impl From<LineFault> for StreamFault {
    ghost use Rattle.stream_record_stream.specs.Answers.{IsUnanswered};

    ghost from_gives = { λ _ fault. IsUnanswered fault };

    fn from(given: LineFault) -> StreamFault {
        match given {
            LineFault::Unread(failed) => StreamFault::Unread(failed),
            LineFault::Memory => StreamFault::Memory,
        }
    }
}

impl From<AllocError> for StreamFault {
    ghost from_gives = { λ _ fault. fault ≡ Memory };

    fn from(_refused: AllocError) -> StreamFault {
        StreamFault::Memory
    }
}
