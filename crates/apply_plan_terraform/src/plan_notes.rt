//! Notes about a whole plan.

ghost use Rattle.std.specs.Prelude.{◌≡◌, IfOk};
ghost use Rattle.apply_plan_terraform.specs.Notes as specs;

use apply_model::{Diag, Note, Severity, Text};
use std::alloc::{AllocError, Global};

/// A note about a whole plan. A stream shows it as a diagnostic.
#[derive(Clone, Copy, Debug, PartialEq, Eq)]
pub enum PlanNote {
    /// The plan covers a part of the configuration only.
    Partial,
    /// Planning ended with an error.
    Unfinished,
}

impl PlanNote {
    /// Builds the diagnostic, in Terraform's words. `Err` when memory is refused.
    pub fn note(self, alloc: Global) -> Result<Note, AllocError>
        ensures { IfOk result (λ note. note ≡ specs.note_of_plan self) }
    {
        match self {
            PlanNote::Partial => note_of(
                alloc,
                Severity::Warning,
                "Applied changes may be incomplete",
                "The plan was created with the -target option in effect, so some changes requested in the configuration may have been ignored and the output values may not be fully updated. Run the following command to verify that no other changes are pending:\n    terraform plan\n\nNote that the -target option is not suitable for routine use, and is provided only for exceptional situations such as recovering from errors or mistakes, or when Terraform specifically suggests to use it as part of an error message.",
            ),
            PlanNote::Unfinished => note_of(
                alloc,
                Severity::Error,
                "Cannot apply incomplete plan",
                "Terraform encountered an error when generating this plan, so it cannot be applied.",
            ),
        }
    }
}

/// Builds a diagnostic without an address. `Err` when memory is refused.
fn note_of(
    alloc: Global,
    severity: Severity,
    summary: &str,
    detail: &str,
) -> Result<Note, AllocError>
    ensures { IfOk result (λ note. note ≡ specs.note_without_address severity summary.now detail.now) }
{
    Ok(Note {
        severity,
        diag: Diag {
            summary: Text::new(alloc, summary)?,
            detail: Text::new(alloc, detail)?,
            range: None,
            snippet: None,
        },
        address: None,
    })
}
