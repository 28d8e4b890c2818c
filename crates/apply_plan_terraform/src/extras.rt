//! What only Terraform's form needs of a script.

ghost use Rattle.std.specs.Prelude.{◌≡◌, []};
ghost use Rattle.serde_json.specs.Data.{no_members};
ghost use Rattle.apply_plan_terraform.specs.StoredOutputs.{members_view};
ghost use Rattle.apply_plan_terraform.specs.Extras.{extras_view};

use crate::stored::stored_output::StoredOutput;
use apply_model::Note;
use serde_json::Map;
use std::alloc::Global;
use std::mem::replace;

/// What only Terraform's form needs of a script. Types and values are JSON texts.
#[derive(Debug, Drop)]
pub struct Extras {
    /// The outputs, by their names.
    pub(crate) outputs: Map<String, StoredOutput>,
    /// The diagnostics of no step, in their order.
    pub(crate) notes: Vec<Note>,
}

impl Extras {
    /// The content for a run without a script.
    pub fn none(alloc: Global) -> Extras
        ensures { extras_view result ≡ record { outputs = no_members; notes = [] } }
    {
        Extras {
            outputs: Map::new(alloc),
            notes: Vec::new(alloc),
        }
    }

    /// Takes out the diagnostics of no step, and leaves none.
    pub fn take_notes(&mut self, alloc: Global) -> Vec<Note>
        ensures notes { result.items ≡ self.old.notes.items }
        ensures outputs { self.new.outputs ≡ self.old.outputs }
    {
        replace(&mut self.notes, Vec::new(alloc))
    }
}
