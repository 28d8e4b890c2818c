//! A fault and its line.

use crate::rules::fault::{Fault, line_after};
use std::error::Error;
use std::fmt;

/// A fault of a line. A fault of the end has the number of the last line, and 0 for a stream
/// without lines.
#[derive(Clone, Copy, Debug, Drop, PartialEq, Eq)]
pub struct Finding {
    /// The line, counted from 1.
    pub line: u64,
    /// What is wrong with the line.
    pub fault: Fault,
    /// How many lines were ignored up to this line, where `find` asks for that.
    pub passed: Option<u64>,
}

impl Finding {
    ghost use Rattle.std.specs.Prelude.{◌≡◌};
    ghost use Rattle.stream_check.specs.Objects.{finding_after};

    /// The same finding of a stream with so many lines of the input before it.
    pub fn after_lines(self, lines: u64) -> Finding
        ensures { result ≡ finding_after lines self }
    {
        Finding {
            line: line_after(lines, self.line),
            fault: self.fault.after_lines(lines),
            passed: self.passed,
        }
    }
}

impl fmt::Display for Finding {
    fn fmt<W: fmt::Write>(&self, f: &mut fmt::Formatter<W>) -> fmt::Result {
        match self.fault {
            Fault::NoMessage(_) => write!(f, "{}", self.fault),
            _ => write!(f, "line {} {}", self.line, self.fault),
        }
    }
}

impl Error for Finding {}
