//! A diagnostic of a script, before its texts are copied.

ghost use Rattle.std.specs.Prelude.{◌≡◌, ◌<◌, Err, IfOk, OnOk, Some, length, option_map, string_bytes};
ghost use Rattle.serde_json.specs.Data.{Data};
ghost use Rattle.apply_json.specs.Verbatim.{IsMixedRead};
ghost use Rattle.apply_json.specs.ShallowView.{members_in, shallow_view, shallow_of};
ghost use Rattle.apply_json.specs.Tokens.{IsNoValue};
ghost use Rattle.apply_plan.specs.Script.Entry.{is_verbatim_name};
ghost use Rattle.apply_plan.specs.Script.Members.{HoldsDiag, diag_read, diag_member};

use crate::script::diag_slots::DiagSlots;
use crate::zip_results::zip_results;
use apply_json::{ReadFault, Reader, Shallow, read_object};
use apply_model::{Diag, Text};
use std::alloc::{AllocError, Global};
use std::marker::Model;

/// A diagnostic with borrowed texts. Contracts see it as its copy, a [`Diag`].
pub struct RawDiag<'a> {
    pub summary: &'a str,
    pub detail: &'a str,
    /// An object, as raw JSON text.
    pub range: Option<String>,
    /// An object, as raw JSON text.
    pub snippet: Option<String>,
}

impl<'a> Model for RawDiag<'a> {
    ghost use Rattle.std.specs.Prelude.{option_map, string_bytes};
    ghost use Rattle.apply_model.specs.declared.script.diag.Diag.{Diag};

    ghost Value = { Diag };

    ghost view = { λ diag. record {
      summary = diag.summary.now;
      detail = diag.detail.now;
      range = option_map string_bytes diag.range;
      snippet = option_map string_bytes diag.snippet;
    } };
}

// Not derived: a value that holds this one is then dropped by a call.
impl<'a> Drop for RawDiag<'a> {
    fn drop(self) {
        let RawDiag {
            summary: _,
            detail: _,
            range: _,
            snippet: _,
        } = self;
    }
}

impl<'a> RawDiag<'a> {
    /// Reads a diagnostic or `null` into its slot. The slot becomes `None` if the value is invalid.
    ///
    /// `Err` means that the text is not JSON, or that memory was refused.
    pub fn read(
        alloc: Global,
        reader: &mut Reader<'a>,
        depth: usize,
        slot: &mut Option<Option<RawDiag<'a>>>,
    ) -> Result<(), ReadFault>
        ensures ok { OnOk result ((d : Data) × IsMixedRead is_verbatim_name depth reader.old d reader.new
            × (slot.new ≡ diag_member (Some d))) }
        ensures shorter { OnOk result (length reader.new < length reader.old) }
        ensures err { result ≡ Err ReadFault.NotJson → IsNoValue depth reader.old }
    {
        let mut slots = DiagSlots::new();
        match read_object(alloc, reader, depth, &mut slots) {
            Ok(value) => {
                *slot = RawDiag::of_value(value, slots);
                Ok(())
            }
            Err(fault) => Err(fault),
        }
    }

    /// Checks a member by its value and the members in it. `Some(None)` means `null`.
    ///
    /// `None` means that the value is invalid.
    fn of_value(value: Shallow<'a>, slots: DiagSlots<'a>) -> Option<Option<RawDiag<'a>>>
        ensures { (d : Data) → shallow_view value.entry ≡ shallow_of (Some d) → HoldsDiag slots.entry (members_in d)
            → result ≡ diag_member (Some d) }
    {
        match value {
            Shallow::Absent => Some(None),
            _ => match RawDiag::of(slots) {
                Some(diag) => Some(Some(diag)),
                None => None,
            },
        }
    }

    /// Checks the members, without the severity. `None` means that one is invalid or missing.
    pub fn of(slots: DiagSlots<'a>) -> Option<RawDiag<'a>>
        ensures { result ≡ diag_read slots.entry }
    {
        let texts = slots.summary.text().zip(slots.detail.text_or(""));
        let verbatim_texts = slots.range.zip(slots.snippet);
        let Some(((summary, detail), (range, snippet))) = texts.zip(verbatim_texts) else {
            return None;
        };
        Some(RawDiag {
            summary,
            detail,
            range,
            snippet,
        })
    }

    /// The diagnostic, with copies of its texts. `Err` means that memory was refused.
    pub fn copied(&self, alloc: Global) -> Result<Diag, AllocError>
        ensures { IfOk result (λ copy. copy ≡ self.now) }
    {
        let texts = zip_results(
            Text::new(alloc, self.summary),
            Text::new(alloc, self.detail),
        );
        let verbatim_texts = zip_results(
            copied_text(alloc, &self.range),
            copied_text(alloc, &self.snippet),
        );
        match zip_results(texts, verbatim_texts) {
            Ok(((summary, detail), (range, snippet))) => Ok(Diag {
                summary,
                detail,
                range,
                snippet,
            }),
            Err(refused) => Err(refused),
        }
    }

    /// Copies an optional diagnostic. `Err` means that memory was refused.
    pub fn copied_option(
        alloc: Global,
        diag: &Option<RawDiag<'_>>,
    ) -> Result<Option<Diag>, AllocError>
        ensures { IfOk result (λ copy. copy ≡ diag.now) }
    {
        match diag {
            Some(diag) => match diag.copied(alloc) {
                Ok(copy) => Ok(Some(copy)),
                Err(refused) => Err(refused),
            },
            None => Ok(None),
        }
    }
}

/// Copies an optional text. `Err` means that memory was refused.
fn copied_text(alloc: Global, text: &Option<String>) -> Result<Option<Text>, AllocError>
    ensures { IfOk result (λ copy. copy ≡ option_map string_bytes text.now) }
{
    match text {
        Some(text) => Text::of_option(alloc, Some(text.as_str())),
        None => Ok(None),
    }
}
