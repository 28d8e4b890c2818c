//! The members of an output.

ghost use Rattle.std.specs.Prelude.{◌≡◌, ℕ, IfOk, List};
ghost use Rattle.serde_json.specs.Data.{Data};
ghost use Rattle.apply_json.specs.ShallowView.{members_in, shallow_view};
ghost use Rattle.stream_watch.specs.Outputs.{is_value, output_named};
ghost use Rattle.stream_watch.specs.OutputSlots.{HoldsOutput, is_true_view, statement_view};

use crate::message::outputs::statement::Statement;
use apply_json::{
    ReadFault, Reader, Shallow, Slots, is_text, read_shallow_into, read_verbatim, skip_member,
};
use std::alloc::{AllocError, Global};

/// The members of an output, while they are read.
#[derive(Drop)]
pub struct OutputSlots<'a> {
    pub action: Shallow<'a>,
    pub sensitive: Shallow<'a>,
    /// `value`, as JSON text.
    pub value: Option<String>,
}

impl<'a> OutputSlots<'a> {
    ghost use Rattle.serde_json.specs.Data.{no_members};

    /// Slots of an output without members.
    pub fn new() -> OutputSlots<'a>
        ensures { HoldsOutput result no_members }
    {
        OutputSlots {
            action: Shallow::Absent,
            sensitive: Shallow::Absent,
            value: None,
        }
    }

    /// Whether `sensitive` is `true`.
    fn is_sensitive(&self) -> bool
        ensures { result ≡ is_true_view (shallow_view self.now.sensitive) }
    {
        match self.sensitive {
            Shallow::Bool(is_sensitive) => is_sensitive,
            _ => false,
        }
    }

    /// Returns what the members state. `Err` where memory is refused.
    pub fn statement(self, alloc: Global) -> Result<Statement, AllocError>
        ensures { IfOk result (λ statement. (name : List ℕ) (d : Data) → HoldsOutput self.entry (members_in d)
            → statement_view name statement ≡ output_named name d) }
    {
        let is_sensitive = self.is_sensitive();
        let action = match self.action.text() {
            Some(action) => Some(String::from_str(alloc, action)?),
            None => None,
        };
        Ok(Statement {
            action,
            is_sensitive,
            value: self.value,
        })
    }
}

impl<'a> Slots<'a> for OutputSlots<'a> {
    ghost is_verbatim = { is_value };

    ghost holds = { λ _ slots ms. HoldsOutput slots ms };

    fn take(
        &mut self,
        alloc: Global,
        name: &str,
        reader: &mut Reader<'a>,
        depth: usize,
    ) -> Result<(), ReadFault> {
        if is_text(name, "action") {
            read_shallow_into(reader, depth, &mut self.action)
        } else if is_text(name, "sensitive") {
            read_shallow_into(reader, depth, &mut self.sensitive)
        } else if is_text(name, "value") {
            self.value = Some(read_verbatim(alloc, reader, depth)?);
            Ok(())
        } else {
            skip_member(reader, depth)
        }
    }
}
