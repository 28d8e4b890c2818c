//! The members of `diagnostic`.

ghost use Rattle.std.specs.Prelude.{◌≡◌, ◌<◌, Err, OnOk, Some, length};
ghost use Rattle.std.specs.Option.{option_copied};
ghost use Rattle.serde_json.specs.Data.{Data};
ghost use Rattle.apply_json.specs.Tokens.{IsNoValue, IsRead};
ghost use Rattle.stream_message.specs.Slots.{HoldsDiagnostic, inside, presence_of};
ghost use Rattle.stream_message.specs.SlotValues.{detail_in, file_in, line_in, diagnostic_address_in, severity_in, summary_in};

use crate::members::text_in;
use crate::presence::Presence;
use crate::range_slots::RangeSlots;
use crate::selected_diagnostic::SelectedDiagnostic;
use apply_json::{ReadFault, Reader, Shallow, read_object};
use std::alloc::Global;

/// The members of `diagnostic` (Machine-Readable UI, "Message Types"). Its methods count a member
/// with another type than theirs as missing.
#[derive(Clone, Copy, Drop)]
pub struct DiagnosticSlots<'a> {
    pub is: Presence,
    pub severity: Option<Shallow<'a>>,
    pub address: Option<Shallow<'a>>,
    /// Read only with `Selection::diagnostic_texts`, as are `detail` and `range`.
    pub summary: Shallow<'a>,
    pub detail: Shallow<'a>,
    pub range: RangeSlots<'a>,
}

impl<'a> DiagnosticSlots<'a> {
    ghost use Rattle.serde_json.specs.Data.{no_members};
    ghost use Rattle.std.specs.Prelude.{None, Bool};

    /// Slots of a message without `diagnostic`.
    pub(crate) fn new() -> DiagnosticSlots<'a>
        ensures is { result.is ≡ presence_of None }
        ensures holds { (texts : Bool) → HoldsDiagnostic texts result no_members }
    {
        DiagnosticSlots {
            is: Presence::Missing,
            severity: None,
            address: None,
            summary: Shallow::Absent,
            detail: Shallow::Absent,
            range: RangeSlots::new(),
        }
    }

    /// Reads `diagnostic` into its slots; `summary`, `detail` and `range` only with `texts`. Arrays
    /// and objects may nest `depth` deep. `Err` with `ReadFault::NotJson` where the value is no
    /// JSON. `Err` with `ReadFault::Memory` where memory is refused.
    pub(crate) fn read(
        alloc: Global,
        reader: &mut Reader<'a>,
        depth: usize,
        texts: bool,
        diagnostic: &mut DiagnosticSlots<'a>,
    ) -> Result<(), ReadFault>
        ensures ok { OnOk result ((d : Data) × IsRead depth reader.old d reader.new
            × (diagnostic.new.is ≡ presence_of (Some d)) × HoldsDiagnostic texts diagnostic.new (inside (Some d))) }
        ensures shorter { OnOk result (length reader.new < length reader.old) }
        ensures err { result ≡ Err ReadFault.NotJson → IsNoValue depth reader.old }
    {
        let mut selected = SelectedDiagnostic {
            texts,
            slots: DiagnosticSlots::new(),
        };
        match read_object(alloc, reader, depth, &mut selected) {
            Ok(value) => {
                *diagnostic = selected.slots;
                diagnostic.is = Presence::of(value);
                Ok(())
            }
            Err(fault) => Err(fault),
        }
    }

    /// Returns the severity.
    pub fn severity(&self) -> Option<&'a str>
        ensures { option_copied result ≡ severity_in self.now }
    {
        text_in(self.severity)
    }

    /// Returns the address of the resource that the diagnostic is about.
    pub fn address(&self) -> Option<&'a str>
        ensures { option_copied result ≡ diagnostic_address_in self.now }
    {
        text_in(self.address)
    }

    /// Returns the summary.
    pub fn summary(&self) -> Option<&'a str>
        ensures { option_copied result ≡ summary_in self.now }
    {
        self.summary.text()
    }

    /// Returns the detail.
    pub fn detail(&self) -> Option<&'a str>
        ensures { option_copied result ≡ detail_in self.now }
    {
        self.detail.text()
    }

    /// Returns the file that the diagnostic is about (`range.filename`).
    pub fn file(&self) -> Option<&'a str>
        ensures { option_copied result ≡ file_in self.now }
    {
        self.range.filename.text()
    }

    /// Returns the line in that file, from 1 (`range.start.line`).
    pub fn line(&self) -> Option<u64>
        ensures { result ≡ line_in self.now }
    {
        self.range.start.whole()
    }
}
