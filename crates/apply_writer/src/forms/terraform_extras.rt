//! What a plan and a script state beyond the steps: only Terraform's form prints it.

ghost use Rattle.std.specs.Prelude.{◌≡◌};
ghost use Rattle.std.specs.List.{list_any};
ghost use Rattle.std.specs.Option.{option_copied};
ghost use Rattle.apply_writer.specs.Stream.Terraform as specs;
ghost use Rattle.apply_writer.specs.Stream.Terraform.{imported_in, planned_id_of, contains_error};

use apply_events::Counts;
use apply_model::{ChangeDetails, Note, Output, Severity};

/// What a plan and a script state beyond the steps. Only Terraform's form prints it.
#[derive(Clone, Copy)]
pub struct TerraformExtras<'a> {
    /// The details of each change, by the change's number.
    pub details: &'a [ChangeDetails],
    /// The diagnostics that belong to no step, in their order.
    pub notes: &'a [Note],
    /// The outputs, in their order.
    pub outputs: &'a [Output],
}

impl TerraformExtras<'_> {
    /// The id that the object of a change will have, if the plan states it.
    pub fn planned_id(&self, change: u32) -> Option<&str>
        ensures { option_copied result ≡ planned_id_of self.now.details.now change }
    {
        match self.details.get(change as usize) {
            Some(details) => details.planned_id(),
            None => None,
        }
    }

    /// How many changes import an object.
    pub fn imported(&self) -> u64
        ensures { result ≡ imported_in self.now.details.now }
    {
        count_imports(self.details)
    }

    /// Whether the stream reports an error: a step failed or was halted, or a diagnostic of no step
    /// is an error.
    pub fn contains_error(&self, counts: &Counts) -> bool
        ensures { result ≡ contains_error self.now.notes.now counts.now }
    {
        0 < counts.failed || 0 < counts.halted || has_error(self.notes)
    }
}

/// Whether a diagnostic of no step is an error.
fn is_error(note: &Note) -> bool
    ensures { result ≡ specs.is_error note.now }
{
    match note.severity {
        Severity::Error => true,
        Severity::Warning => false,
    }
}

/// Whether one of the diagnostics is an error.
fn has_error(notes: &[Note]) -> bool
    ensures { result ≡ list_any specs.is_error notes.now }
{
    notes.iter().any(is_error)
}

/// How many of the changes import an object.
fn count_imports(details: &[ChangeDetails]) -> u64
    ensures { result ≡ imported_in details.now }
{
    let mut count: u64 = 0;
    for change in details {
        if change.importing.is_some() {
            count += 1;
        }
    }
    count
}
