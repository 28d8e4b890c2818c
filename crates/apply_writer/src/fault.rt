//! The error of a run.

ghost use Rattle.std.specs.Prelude.{◌≡◌};

use crate::report::Report;
use crate::why::Why;
use thiserror::Error;

/// Why a run failed, and what it had done by then.
#[derive(Clone, Copy, Debug, Drop, Error, PartialEq, Eq)]
#[error("{why}")]
pub struct Fault {
    /// Why the run failed.
    pub why: Why,
    /// What the run had done.
    pub report: Report,
}

impl Fault {
    /// The error of a run that did nothing.
    pub fn at_once(why: Why) -> Fault
        ensures why { result.why ≡ why }
        ensures nothing { result.report ≡ record {
          counts = record { added = 0; changed = 0; removed = 0; failed = 0; halted = 0 };
          taken = 0;
          written = 0;
        } }
    {
        Fault {
            why,
            report: Report::nothing(),
        }
    }
}
