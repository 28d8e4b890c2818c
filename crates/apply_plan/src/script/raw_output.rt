//! An item of `output`, before its text is copied.

ghost use Rattle.std.specs.Prelude.{◌≡◌, ◌≤◌, IfOk, option_map};
ghost use Rattle.apply_model.specs.Script.Limits.{max_seconds};
ghost use Rattle.apply_plan.specs.Script.Entry.{OutputItem, output_from, timed};
ghost use Rattle.apply_plan.specs.Script.Members.{output_read};
ghost use Rattle.apply_plan.specs.Script.OutputView.{output_view};

use crate::script::list_item::ListItem;
use crate::script::number_or_none::number_or_none;
use crate::script::output_slots::OutputSlots;
use apply_json::{ReadFault, Reader, Shallow, read_object};
use apply_model::{Text, TimedText};
use std::alloc::{AllocError, Global};

/// An output of a provisioner, with valid members.
#[derive(Clone, Copy)]
pub struct RawOutput<'a> {
    /// Seconds after the start of the provisioner, not limited yet. `None` means at its end.
    pub after: Option<u64>,
    pub text: &'a str,
}

impl<'a> ListItem<'a> for RawOutput<'a> {
    ghost Seen = { OutputItem };

    ghost see = { output_view };

    ghost part = { output_from };

    fn read(
        alloc: Global,
        reader: &mut Reader<'a>,
        depth: usize,
    ) -> Result<Option<RawOutput<'a>>, ReadFault> {
        let mut slots = OutputSlots::new();
        match read_object(alloc, reader, depth, &mut slots)? {
            Shallow::Text(text) => Ok(Some(RawOutput { after: None, text })),
            _ => Ok(RawOutput::of(&slots)),
        }
    }
}

impl<'a> RawOutput<'a> {
    /// Checks the members. `None` means that one is invalid or missing.
    fn of(slots: &OutputSlots<'a>) -> Option<RawOutput<'a>>
        ensures { option_map output_view result ≡ output_read slots.now }
    {
        let Some((text, after)) = slots.text.text().zip(number_or_none(slots.after)) else {
            return None;
        };
        Some(RawOutput { after, text })
    }

    /// When the output comes, in seconds after the start of a provisioner that takes `seconds`.
    pub fn seconds_of(&self, seconds: u64) -> u64
        ensures { result ≡ (timed seconds (output_view self.now)).after }
    {
        self.after.unwrap_or(seconds)
    }

    /// The output with a copy of its text, for a provisioner that takes `seconds`.
    ///
    /// `Err` means that memory was refused.
    pub fn copied(&self, alloc: Global, seconds: u64) -> Result<TimedText, AllocError>
        requires { (timed seconds (output_view self.now)).after ≤ max_seconds }
        ensures { IfOk result (λ copy. copy ≡ timed seconds (output_view self.now)) }
    {
        Ok(TimedText {
            after: self.seconds_of(seconds) as u32,
            text: Text::new(alloc, self.text)?,
        })
    }
}
