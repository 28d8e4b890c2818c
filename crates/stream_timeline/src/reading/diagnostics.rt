//! The diagnostics of one severity.

ghost use Rattle.std.specs.Prelude.{◌≡◌, OnErr, OnOk};
ghost use Rattle.stream_timeline.specs.SlotContents.{diagnostic_in};
ghost use Rattle.stream_timeline.specs.TimelineRead.{no_diagnostics};
ghost use Rattle.stream_timeline.specs.Building.{added};

use crate::reading::diagnostic::Diagnostic;
use crate::reading::limits::MAX_STORED;
use std::alloc::{AllocError, Global};
use std::marker::Model;
use stream_message::DiagnosticSlots;

/// The diagnostics of one severity: the first 20, and how many there were in all.
#[derive(Drop)]
pub struct Diagnostics {
    stored: Vec<Diagnostic>,
    count: u64,
}

impl Model for Diagnostics {
    ghost use Rattle.stream_timeline.specs.TimelineRead.{DiagnosticsRead};

    ghost Value = { DiagnosticsRead };

    ghost view = { λ d. record { stored = d.stored.items; count = d.count } };
}

impl Diagnostics {
    /// No diagnostics.
    pub(crate) fn new(alloc: Global) -> Diagnostics
        ensures { result ≡ no_diagnostics }
    {
        Diagnostics {
            stored: Vec::new(alloc),
            count: 0,
        }
    }

    /// Adds a diagnostic. `Err` means that memory was refused; then nothing is changed.
    pub(crate) fn add(
        &mut self,
        alloc: Global,
        slots: &DiagnosticSlots<'_>,
    ) -> Result<(), AllocError>
        ensures ok { OnOk result (self.new ≡ added (diagnostic_in slots.now) self.old) }
        ensures err { OnErr result (self.new ≡ self.old) }
    {
        if self.stored.len() < MAX_STORED {
            let diagnostic = Diagnostic::of(alloc, slots)?;
            self.stored.push(diagnostic)?;
        }
        self.count = self.count.saturating_add(1);
        Ok(())
    }

    /// The first diagnostics, at most 20.
    pub fn stored(&self) -> &[Diagnostic]
        ensures { result.now ≡ self.now.stored }
    {
        self.stored.as_slice()
    }

    /// How many diagnostics there were in all. The count stops at its greatest value.
    pub fn count(&self) -> u64
        ensures { result ≡ self.now.count }
    {
        self.count
    }
}
