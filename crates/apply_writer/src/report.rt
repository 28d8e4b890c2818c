//! The report of a run.

ghost use Rattle.std.specs.Prelude.{◌≡◌};

use apply_events::Counts;

/// What a run has done, whether it succeeded or failed.
#[derive(Clone, Copy, Debug, PartialEq, Eq)]
pub struct Report {
    /// How many steps completed, failed and were halted.
    pub counts: Counts,
    /// How many events of the workers or lanes were counted.
    pub taken: u64,
    /// How many bytes were written to the sink.
    pub written: u128,
}

impl Report {
    /// The report of a run that did nothing.
    pub fn nothing() -> Report
        ensures { result ≡ record {
          counts = record { added = 0; changed = 0; removed = 0; failed = 0; halted = 0 };
          taken = 0;
          written = 0;
        } }
    {
        Report {
            counts: Counts::new(),
            taken: 0,
            written: 0,
        }
    }
}
