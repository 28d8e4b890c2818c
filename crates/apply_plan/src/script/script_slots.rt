//! The top level of a script.

ghost use Rattle.std.specs.Prelude.{◌≡◌, IfErr, IfOk, List, Ok};
ghost use Rattle.serde_json.specs.Data.{Data, no_members};
ghost use Rattle.apply_json.specs.ShallowView.{members_in};
ghost use Rattle.apply_plan.specs.Script.Entry.{is_verbatim_name};
ghost use Rattle.apply_plan.specs.Script.EntriesView.{HoldsEntries, HoldsScript};
ghost use Rattle.apply_plan.specs.Script.NeverBeginning.{elements_of_tree};

use crate::script::entries::Entries;
use crate::script::script_error::ScriptError;
use apply_json::{ArrayPresence, ReadFault, Reader, Slots, is_text, read_list, skip_member};
use apply_model::Plan;
use std::alloc::{AllocError, Global};

/// The top-level members of a script, while they are read.
#[derive(Drop)]
pub struct ScriptSlots<'a> {
    pub entries: Entries<'a>,
    /// Whether `changes` is an array.
    pub changes: ArrayPresence,
}

impl<'a> ScriptSlots<'a> {
    /// Slots before any member was read.
    pub fn new(alloc: Global, plan: &'a Plan) -> Result<ScriptSlots<'a>, AllocError>
        ensures { IfOk result (λ slots. (slots.entries.plan ≡ plan.entry) × HoldsScript slots no_members) }
    {
        Ok(ScriptSlots {
            entries: Entries::new(alloc, plan)?,
            changes: ArrayPresence::Absent,
        })
    }

    /// The entries. `Err` is `ScriptError::BadShape(None)` if `changes` is not an array.
    pub fn entries(self) -> Result<Entries<'a>, ScriptError>
        ensures ok { IfOk result (λ entries. (entries.plan ≡ self.entry.entries.plan) × ((d : Data)
            → HoldsScript self.entry (members_in d) → (ds : List Data) × (elements_of_tree d ≡ Ok ds) × HoldsEntries entries ds)) }
        ensures err { IfErr result (λ refusal. (d : Data)
            → HoldsScript self.entry (members_in d) → elements_of_tree d ≡ Err refusal) }
    {
        match self.changes {
            ArrayPresence::List => Ok(self.entries),
            ArrayPresence::Absent | ArrayPresence::Other => Err(ScriptError::BadShape(None)),
        }
    }
}

impl<'a> Slots<'a> for ScriptSlots<'a> {
    ghost is_verbatim = { is_verbatim_name };

    ghost holds = { λ start slots ms. (slots.entries.plan ≡ start.entries.plan) × HoldsScript slots ms };

    fn take(
        &mut self,
        alloc: Global,
        name: &str,
        reader: &mut Reader<'a>,
        depth: usize,
    ) -> Result<(), ReadFault> {
        if is_text(name, "changes") {
            self.entries.forget();
            self.changes = read_list(alloc, reader, depth, &mut self.entries)?;
            Ok(())
        } else {
            skip_member(reader, depth)
        }
    }
}
