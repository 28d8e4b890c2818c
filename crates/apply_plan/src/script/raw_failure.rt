//! Why the provider of a step fails, before the texts are copied.

ghost use Rattle.std.specs.Prelude.{◌≡◌, ◌<◌, Err, IfOk, OnOk, Some, length, option_map};
ghost use Rattle.serde_json.specs.Data.{Data};
ghost use Rattle.apply_json.specs.Verbatim.{IsMixedRead};
ghost use Rattle.apply_json.specs.ShallowView.{members_in, shallow_view, shallow_of};
ghost use Rattle.apply_json.specs.Tokens.{IsNoValue};
ghost use Rattle.apply_plan.specs.Script.Entry.{ending_by, is_verbatim_name};
ghost use Rattle.apply_plan.specs.Script.Members.{HoldsDiag, failure_read, failure_member};
ghost use Rattle.apply_plan.specs.Script.RawView.{failure_view};

use crate::script::diag_slots::DiagSlots;
use crate::script::raw_diag::RawDiag;
use crate::script::word_flag::word_flag;
use apply_json::{ReadFault, Reader, Shallow, read_object};
use apply_model::Ending;
use std::alloc::{AllocError, Global};

/// Why the provider of a step fails, and whether the failure is only a warning.
#[derive(Drop)]
pub struct RawFailure<'a> {
    pub diag: RawDiag<'a>,
    pub only_warns: bool,
}

impl<'a> RawFailure<'a> {
    /// Reads a failure or `null` into its slot. The slot becomes `None` if the value is invalid.
    ///
    /// `Err` means that the text is not JSON, or that memory was refused.
    pub fn read(
        alloc: Global,
        reader: &mut Reader<'a>,
        depth: usize,
        slot: &mut Option<Option<RawFailure<'a>>>,
    ) -> Result<(), ReadFault>
        ensures ok { OnOk result ((d : Data) × IsMixedRead is_verbatim_name depth reader.old d reader.new
            × (option_map (λ failure. option_map failure_view failure) slot.new ≡ failure_member (Some d))) }
        ensures shorter { OnOk result (length reader.new < length reader.old) }
        ensures err { result ≡ Err ReadFault.NotJson → IsNoValue depth reader.old }
    {
        let mut slots = DiagSlots::new();
        match read_object(alloc, reader, depth, &mut slots) {
            Ok(value) => {
                *slot = RawFailure::of_value(value, slots);
                Ok(())
            }
            Err(fault) => Err(fault),
        }
    }

    /// Checks a member by its value and the members in it. `Some(None)` means `null`.
    ///
    /// `None` means that the value is invalid.
    fn of_value(value: Shallow<'a>, slots: DiagSlots<'a>) -> Option<Option<RawFailure<'a>>>
        ensures { (d : Data) → shallow_view value.entry ≡ shallow_of (Some d) → HoldsDiag slots.entry (members_in d)
            → option_map (λ failure. option_map failure_view failure) result ≡ failure_member (Some d) }
    {
        match value {
            Shallow::Absent => Some(None),
            _ => match RawFailure::of(slots) {
                Some(failure) => Some(Some(failure)),
                None => None,
            },
        }
    }

    /// Checks the members. `None` means that one is invalid or missing.
    fn of(slots: DiagSlots<'a>) -> Option<RawFailure<'a>>
        ensures { option_map failure_view result ≡ failure_read slots.entry }
    {
        let severity = slots.severity;
        let only_warns = word_flag(severity, "warning", "error");
        let Some((diag, only_warns)) = RawDiag::of(slots).zip(only_warns) else {
            return None;
        };
        Some(RawFailure { diag, only_warns })
    }
    /// The ending of the step, with copies of the texts. `Err` means that memory was refused.
    pub fn copied(&self, alloc: Global) -> Result<Ending, AllocError>
        ensures { IfOk result (λ copy. copy ≡ ending_by (failure_view self.now)) }
    {
        match self.diag.copied(alloc) {
            Ok(diag) => if self.only_warns {
                Ok(Ending::Warned { diag })
            } else {
                Ok(Ending::Failed { diag })
            },
            Err(refused) => Err(refused),
        }
    }
}
