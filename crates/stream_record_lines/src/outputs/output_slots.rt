//! The members of an output.

ghost use Rattle.std.specs.Prelude.{◌≡◌, ℕ, List};
ghost use Rattle.serde_json.specs.Data.{Data};
ghost use Rattle.apply_json.specs.ShallowView.{members_in, shallow_view};
ghost use Rattle.stream_record_lines.specs.Outputs.{is_json, output_named};
ghost use Rattle.stream_record_lines.specs.OutputSlots.{HoldsOutput, is_present, is_true_view, statement_view};

use crate::outputs::statement::Statement;
use apply_json::{
    ReadFault, Reader, Shallow, Slots, is_text, read_shallow_into, read_verbatim, skip_member,
};
use std::alloc::Global;

/// The members of an output, while they are read.
#[derive(Drop)]
pub struct OutputSlots<'a> {
    pub action: Shallow<'a>,
    pub sensitive: Shallow<'a>,
    /// `type`, as JSON text.
    pub type_json: Option<String>,
    /// `value`, as JSON text.
    pub value_json: Option<String>,
}

impl<'a> OutputSlots<'a> {
    ghost use Rattle.serde_json.specs.Data.{no_members};

    /// Slots of an output without members.
    pub fn new() -> OutputSlots<'a>
        ensures { HoldsOutput result no_members }
    {
        OutputSlots {
            action: Shallow::Absent,
            sensitive: Shallow::Absent,
            type_json: None,
            value_json: None,
        }
    }

    /// Whether `sensitive` is `true`.
    fn is_sensitive(&self) -> bool
        ensures { result ≡ is_true_view (shallow_view self.now.sensitive) }
    {
        match self.sensitive {
            Shallow::Bool(is_sensitive) => is_sensitive,
            _ => false,
        }
    }

    /// Whether there is an `action`.
    fn has_action(&self) -> bool
        ensures { result ≡ is_present (shallow_view self.now.action) }
    {
        !matches!(self.action, Shallow::Absent)
    }

    /// Returns what the members state.
    pub fn statement(self) -> Statement
        ensures { (name : List ℕ) (d : Data) → HoldsOutput self.entry (members_in d)
            → statement_view name result ≡ output_named name d }
    {
        Statement {
            has_action: self.has_action(),
            is_sensitive: self.is_sensitive(),
            type_json: self.type_json,
            value_json: self.value_json,
        }
    }
}

impl<'a> Slots<'a> for OutputSlots<'a> {
    ghost is_verbatim = { is_json };

    ghost holds = { λ _ slots ms. HoldsOutput slots ms };

    fn take(
        &mut self,
        alloc: Global,
        name: &str,
        reader: &mut Reader<'a>,
        depth: usize,
    ) -> Result<(), ReadFault> {
        if is_text(name, "action") {
            read_shallow_into(reader, depth, &mut self.action)
        } else if is_text(name, "sensitive") {
            read_shallow_into(reader, depth, &mut self.sensitive)
        } else if is_text(name, "type") {
            self.type_json = Some(read_verbatim(alloc, reader, depth)?);
            Ok(())
        } else if is_text(name, "value") {
            self.value_json = Some(read_verbatim(alloc, reader, depth)?);
            Ok(())
        } else {
            skip_member(reader, depth)
        }
    }
}
